//! Chains of elements, each in the box of the one before it.
ghost use Rattle.std.specs.Prelude.{◌≡◌, ◌++◌, filter, ◌+◌, ◌<◌, [], ◌∷◌, length, reverse, remove, slice_get, min, ◌^◌, ◌-◌, None, Some};
ghost use Rattle.bio_records.specs.Items.{items, in_order, item_of, joint_length, Detaches, IsAlone, PopsFirst};
ghost use Rattle.bio_records.specs.Sorting.{is_lower, is_of, is_of_other, is_for_device, same_set, sorted};

use crate::bio::Pad;
use crate::body::BioBody;
use elem_ledger::{Element, Share};
use stack_base::{DevId, SetId};
use std::mem;

/// The first element of a chain, by its two parts.
pub type Link<F> = Option<(Box<BioBody<F>>, Share)>;

/// Puts what there is, if anything, in a place where nothing is. An assignment would have code that drops what was there.
pub fn put<T: Drop>(place: &mut Option<T>, value: Option<T>)
    requires { place.old ≡ None }
    ensures { place.new ≡ value }
{
    mem::forget(mem::replace(place, value));
}

/// Puts an element before a chain.
pub fn attach<F: Drop>(link: &mut Link<F>, element: Element<BioBody<F>>)
    requires { IsAlone element }
    ensures { items link.new ≡ item_of element ∷ items link.old }
{
    let (mut body, share) = element.parts();
    if let Some((next, of)) = link.take() {
        put(&mut body.next, Some((next, of)));
    }
    put(link, Some((body, share)));
}

/// Takes the first element off a chain.
pub fn detach<F: Drop>(link: &mut Link<F>) -> Option<Element<BioBody<F>>>
    ensures { PopsFirst (items link.old) result (items link.new) }
{
    let (mut body, share) = link.take()?;
    if let Some((next, of)) = body.next.take() {
        put(link, Some((next, of)));
    }
    Some(Element { body, share })
}

/// Puts the elements of a chain before another, the first one deepest.
pub fn reverse_onto<F: Drop>(mut from: Link<F>, mut onto: Link<F>) -> Link<F>
    ensures { items result ≡ reverse (items from) ++ items onto }
{
    'moving: while let Some((mut body, share)) = from {
        from = mem::replace(&mut body.next, onto);
        onto = Some((body, share));
    }
    onto
}

// Whether two sets are one.
fn same_set(one: SetId, other: SetId) -> bool
    ensures { result ≡ same_set one other }
{
    match (one, other) {
        (SetId::Fs, SetId::Fs) => true,
        (SetId::Of(one), SetId::Of(other)) => one.0 == other.0,
        (SetId::Fs, SetId::Of(_)) | (SetId::Of(_), SetId::Fs) => false,
    }
}

/// Moves the bios of a chain: those for this device before `same`, and the others before `lower`, the first one deepest.
pub fn part(
    mut from: Link<Pad>,
    dev: DevId,
    mut lower: Link<Pad>,
    mut same: Link<Pad>,
) -> (Link<Pad>, Link<Pad>)
    ensures lower { items result.0 ≡ reverse (filter (is_lower dev) (items from)) ++ items lower }
    ensures same { items result.1 ≡ reverse (filter (is_for_device dev) (items from)) ++ items same }
{
    'parting: while let Some((mut body, share)) = from {
        if body.bio.dev == dev {
            from = mem::replace(&mut body.next, same);
            same = Some((body, share));
        } else {
            from = mem::replace(&mut body.next, lower);
            lower = Some((body, share));
        }
    }
    (lower, same)
}

/// Puts the bios of a list with this front and back before a chain: first those for other devices than this one, then those for it.
pub fn sorted(front: Link<Pad>, back: Link<Pad>, dev: DevId, own: Link<Pad>) -> Link<Pad>
    ensures { items result ≡ sorted dev (in_order front back) (items own) }
{
    let (lower, same) = part(back, dev, None, own);
    let (lower, same) = part(reverse_onto(front, None), dev, lower, same);
    reverse_onto(reverse_onto(lower, None), same)
}

/// Moves the bios of a chain: those of this set before `chosen`, and the others before `others`, the first one deepest.
pub fn part_by_set(
    mut from: Link<Pad>,
    set: SetId,
    mut chosen: Link<Pad>,
    mut others: Link<Pad>,
) -> (Link<Pad>, Link<Pad>)
    ensures chosen { items result.0 ≡ reverse (filter (is_of set) (items from)) ++ items chosen }
    ensures others { items result.1 ≡ reverse (filter (is_of_other set) (items from)) ++ items others }
{
    'parting: while let Some((mut body, share)) = from {
        if same_set(body.bio.set, set) {
            from = mem::replace(&mut body.next, chosen);
            chosen = Some((body, share));
        } else {
            from = mem::replace(&mut body.next, others);
            others = Some((body, share));
        }
    }
    (chosen, others)
}

/// The bios of a list with this front and back: first those of this set, and then the others.
#[tactic(auto, using(crate::proofs::Sorted::one_parted))]
pub fn set_apart(front: Link<Pad>, back: Link<Pad>, set: SetId) -> (Link<Pad>, Link<Pad>)
    ensures chosen { items result.0 ≡ filter (is_of set) (in_order front back) }
    ensures others { items result.1 ≡ filter (is_of_other set) (in_order front back) }
{
    let (chosen, others) = part_by_set(back, set, None, None);
    part_by_set(reverse_onto(front, None), set, chosen, others)
}

/// How many elements a chain has, or `u64::MAX` where there are more.
pub fn count_of<F: Drop>(link: &Link<F>) -> u64
    ensures { result ≡ min (length (items link.now)) (2 ^ 64 - 1) }
{
    let mut count: u64 = 0;
    let mut rest = link;
    'counting: while let Some((body, _)) = rest {
        count = count.saturating_add(1);
        rest = &body.next;
    }
    count
}

/// Moves up to `count` elements from the front of a chain to another, the last one moved first there. Answers how many were lacking.
pub fn pass<F: Drop>(from: &mut Link<F>, count: u64, passed: &mut Link<F>) -> u64
    ensures same { reverse (items passed.new) ++ items from.new ≡ reverse (items passed.old) ++ items from.old }
    ensures counted { length (items passed.new) + result ≡ length (items passed.old) + count }
    ensures lacked { 0 < result → items from.new ≡ [] }
{
    let mut left = count;
    'passing: while left > 0 {
        let Some(element) = detach(from) else {
            return left;
        };
        attach(passed, element);
        left -= 1;
    }
    0
}

/// How many elements two chains have together, or `u64::MAX` where there are more, from that number with one element more. The chains are
/// looked at only where it does not tell.
pub fn count_less_one<F: Drop>(count: u64, front: &Link<F>, back: &Link<F>) -> u64
    requires { count ≡ min (joint_length front.now back.now + 1) (2 ^ 64 - 1) }
    ensures { result ≡ min (joint_length front.now back.now) (2 ^ 64 - 1) }
{
    if count < u64::MAX {
        count - 1
    } else {
        count_of(front).saturating_add(count_of(back))
    }
}

/// How many elements each of two chains has, or `u64::MAX` where there are more, from how many they have together. The second one is looked at only
/// where that does not tell.
pub fn counts_apart<F: Drop>(count: u64, chosen: &Link<F>, others: &Link<F>) -> (u64, u64)
    requires { count ≡ min (joint_length chosen.now others.now) (2 ^ 64 - 1) }
    ensures chosen { result.0 ≡ min (length (items chosen.now)) (2 ^ 64 - 1) }
    ensures others { result.1 ≡ min (length (items others.now)) (2 ^ 64 - 1) }
{
    let of_chosen = count_of(chosen);
    if count < u64::MAX {
        (of_chosen, count - of_chosen)
    } else {
        (of_chosen, count_of(others))
    }
}

/// Where the front of a list is empty, its back becomes its front: turned round, and empty from then on.
pub fn bring_round<F: Drop>(front: &mut Link<F>, back: &mut Link<F>)
    ensures same { in_order front.new back.new ≡ in_order front.old back.old }
    ensures brought { items front.old ≡ [] → items back.new ≡ [] }
    ensures emptied { items front.new ≡ [] → items back.new ≡ [] }
{
    if front.is_none() {
        put(front, reverse_onto(back.take(), None));
    }
}

// The places of a chain that are reached by calls of `detach_to` within each other are those below this.
const NEAR: u64 = 64;

// Takes the element at a place out of a chain, if it is that long, and hands it to `taken`, which has none. The others stay where they are.
// Nothing is left to do behind the inner call, so that it costs no more than a turn of a loop.
#[cycle(places)]
fn detach_to<F: Drop>(link: &mut Link<F>, index: u64, taken: &mut Option<Element<BioBody<F>>>)
    requires { taken.old ≡ None }
    ensures { Detaches (items link.old) index taken.new (items link.new) }
{
    if index == 0 {
        put(taken, detach(link));
        return;
    }
    if let Some((body, _)) = link {
        detach_to(&mut body.next, index - 1, taken);
    }
}

/// Takes the element at a place out of a chain, if it is that long. The others stay where they are.
pub fn detach_at<F: Drop>(link: &mut Link<F>, index: u64) -> Option<Element<BioBody<F>>>
    ensures { Detaches (items link.old) index result (items link.new) }
{
    let mut taken = None;
    detach_to(link, index, &mut taken);
    taken
}

// Takes the element at a place out of a list with this front and back, by moving those before it. The others keep their order.
fn take_far<F: Drop>(front: &mut Link<F>, back: &mut Link<F>, index: u64) -> Element<BioBody<F>>
    requires { index < joint_length front.old back.old }
    ensures taken { slice_get (in_order front.old back.old) index ≡ Some (item_of result) }
    ensures rest { in_order front.new back.new ≡ remove (in_order front.old back.old) index }
    ensures counted { joint_length front.new back.new + 1 ≡ joint_length front.old back.old }
    ensures alone { IsAlone result }
{
    let mut passed = None;
    let lacking = pass(front, index, &mut passed);
    bring_round(front, back);
    let _none = pass(front, lacking, &mut passed);
    let element = detach(front).unwrap();
    let rest = front.take();
    put(front, reverse_onto(passed, rest));
    element
}

/// Takes the element at a place out of a list with this front and back. The others keep their order.
pub fn take_out<F: Drop>(front: &mut Link<F>, back: &mut Link<F>, index: u64) -> Element<BioBody<F>>
    requires { index < joint_length front.old back.old }
    ensures taken { slice_get (in_order front.old back.old) index ≡ Some (item_of result) }
    ensures rest { in_order front.new back.new ≡ remove (in_order front.old back.old) index }
    ensures counted { joint_length front.new back.new + 1 ≡ joint_length front.old back.old }
    ensures alone { IsAlone result }
{
    if index < NEAR {
        if let Some(element) = detach_at(front, index) {
            return element;
        }
    }
    take_far(front, back, index)
}
