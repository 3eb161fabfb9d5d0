//! What accepted texts mean, worked out by hand from the rules.
use crate::asks::{Case, all_hold};
use crate::scenes::{Scene, scene_of};
use fail_script::Script;
use layout_model::Write;
use stack_base::{DevId, Device, Kind, PoolId, Stack, Status};
use std::alloc::AllocError;
use std::process::Abort;

/// What no text says: the writers' set and its scripts as they are without a line of them.
const NOTHING: &str =
    "fs 2 bios, 2 vecs\nfs.bios . then +\nfs.vecs . then +\n0 elements, 0 fragments, 0 entries\n";

/// What a disk means whose text has no memory but for one script.
const DISK_WITHOUT_MEMORY: &str =
    "a disk of 8\nfs 2 bios, 2 vecs\nfs.bios . then -\nfs.vecs +- then +\n0 elements, 0 fragments, 2 entries\n";

/// A text, and what it means, as `told` tells it.
struct Meaning(&'static str, &'static str);

const MEANINGS: &[Meaning] = &[
    Meaning("", NOTHING),
    Meaning("# nothing\n\n", NOTHING),
    Meaning("fs\n", NOTHING),
    Meaning("fs vecs=0002\n", NOTHING),
    Meaning(
        "fs vecs=1024 bios=1\nscript fs.vecs . -\nscript fs.bios -+- +\n",
        "fs 1 bios, 1024 vecs\nfs.bios -+- then +\nfs.vecs . then -\n0 elements, 0 fragments, 3 entries\n",
    ),
    // The place of the line has no effect.
    Meaning(
        "memory none\ndisk a 8\nscript fs.vecs +- +\n",
        DISK_WITHOUT_MEMORY,
    ),
    Meaning(
        "disk a 8\nmemory none\nscript fs.vecs +- +\n",
        DISK_WITHOUT_MEMORY,
    ),
    Meaning(
        "script fs.vecs +- +\ndisk a 8\nmemory none",
        DISK_WITHOUT_MEMORY,
    ),
    // What stands where an option is missing.
    Meaning(
        "disk a 8\ndisk b 8\ndisk c 8\ndisk d 8\nlinear n a\nstripe s chunk=4 b\nlimit l max=5 c\nmirror m d\n",
        "a disk of 8\nb disk of 8\nc disk of 8\nd disk of 8\n\
         n linear over 0, reserve 2\n\
         s stripe of chunk 4 over 1, reserve 2\n\
         l limit of max 5 and chunk 0 over 2, reserve 2\n\
         m mirror of records 2 over 3, reserve 2 and a rescuer\n\
         fs 2 bios, 2 vecs\nfs.bios . then +\nfs.vecs . then +\n\
         7.records . then +\n7.bios . then +\n6.bios . then +\n5.bios . then +\n4.bios . then +\n\
         0 elements, 0 fragments, 0 entries\n",
    ),
    // Each option, and members in their order.
    Meaning(
        "disk a 8\ndisk b 8\ndisk c 8\nlinear n b rescuer=yes a reserve=1\nlimit l reserve=1024 max=18446744073709551615 c chunk=7\n\
         mirror m rescuer=yes reserve=3 l records=4 n\n",
        "a disk of 8\nb disk of 8\nc disk of 8\n\
         n linear over 1 0, reserve 1 and a rescuer\n\
         l limit of max 18446744073709551615 and chunk 7 over 2, reserve 1024\n\
         m mirror of records 4 over 4 3, reserve 3 and a rescuer\n\
         fs 2 bios, 2 vecs\nfs.bios . then +\nfs.vecs . then +\n\
         5.records . then +\n5.bios . then +\n4.bios . then +\n3.bios . then +\n\
         0 elements, 0 fragments, 0 entries\n",
    ),
    Meaning(
        "disk a 8\nmirror m a rescuer=no\n",
        "a disk of 8\nm mirror of records 2 over 0, reserve 2\n\
         fs 2 bios, 2 vecs\nfs.bios . then +\nfs.vecs . then +\n1.records . then +\n1.bios . then +\n\
         0 elements, 0 fragments, 0 entries\n",
    ),
    // The first write needs its bio, a record and two bios. The second one needs a bio more for each of three cuts: the stripe cuts its run
    // at sector 24 and the limit below that at 27, and the linear device cuts it at 24.
    Meaning(
        "# A mirror of a stripe and a linear device\n\
         disk a 64\ndisk b 100\nbad a 4 2 nospace\ndisk c 24\ndisk d 64\nbad c 0 1 io\nbad a 2 1 medium\n\
         limit l max=3 chunk=8 b\nstripe s a chunk=8 l reserve=7\nlinear n c d\nmirror m records=5 s reserve=3 n\n\
         fs vecs=9\nscript m.records +-- -\nmemory none\nscript s.bios . +\n\
         write 3 m 0 4 18446744073709551615\n\n# and a longer one\nwrite 7 m 20 8 0\n",
        "a disk of 64, nospace of 2 at 4, medium of 1 at 2\nb disk of 100\nc disk of 24, io of 1 at 0\nd disk of 64\n\
         l limit of max 3 and chunk 8 over 1, reserve 2\n\
         s stripe of chunk 8 over 0 4, reserve 7\n\
         n linear over 2 3, reserve 2\n\
         m mirror of records 5 over 5 6, reserve 3 and a rescuer\n\
         fs 2 bios, 9 vecs\nfs.bios . then -\nfs.vecs . then -\n\
         7.records +-- then -\n7.bios . then -\n6.bios . then -\n5.bios . then +\n4.bios . then -\n\
         task 3 writes 4 at 0 of 7 with tag 18446744073709551615\ntask 7 writes 8 at 20 of 7 with tag 0\n\
         11 elements, 7 fragments, 3 entries\n",
    ),
    // Names, and words that write numbers.
    Meaning(
        "disk a-b_c-d_e-f_0-9 0064\r\n\tdisk\tFS\t00000000000000000001\r\nwrite 007 a-b_c-d_e-f_0-9 063 01 0255",
        "a-b_c-d_e-f_0-9 disk of 64\nFS disk of 1\n\
         fs 2 bios, 2 vecs\nfs.bios . then +\nfs.vecs . then +\n\
         task 7 writes 1 at 63 of 0 with tag 255\n\
         1 elements, 1 fragments, 0 entries\n",
    ),
];

// Appends what a text says, in lines: its devices, the writers' set, the scripts of all pools, the writes, and what these need.
fn tell(told: &mut String, scene: &Scene) -> Result<(), AllocError> {
    tell_stack(told, &scene.accepted.stack)?;
    for (pool, script) in scene.accepted.scripts.iter() {
        tell_script(told, *pool, script)?;
    }
    for write in scene.work.writes.iter() {
        tell_write(told, write)?;
    }
    let bound = &scene.work.bound;
    writeln!(
        told,
        "{} elements, {} fragments, {} entries",
        bound.e, bound.g, bound.z
    )
}

// What a text says, in lines.
fn told(rt: &(impl Abort + AllocGlobal), scene: &Scene) -> String {
    let mut told = String::new(rt.alloc());
    tell(&mut told, scene).expect(rt, "no lines");
    told
}

fn tell_stack(told: &mut String, stack: &Stack) -> Result<(), AllocError> {
    for device in stack.devices.iter() {
        tell_device(told, device)?;
    }
    writeln!(told, "fs {} bios, {} vecs", stack.fs_bios, stack.fs_vecs)
}

fn tell_device(told: &mut String, device: &Device) -> Result<(), AllocError> {
    told.push_str(device.name.as_str())?;
    tell_kind(told, &device.kind)?;
    if device.members.is_empty() {
        return told.push_str("\n");
    }
    told.push_str(" over")?;
    for member in device.members.iter() {
        write!(told, " {}", member.0)?;
    }
    let rescuer = if device.rescuer { " and a rescuer" } else { "" };
    writeln!(told, ", reserve {}{rescuer}", device.reserve)
}

fn tell_kind(told: &mut String, kind: &Kind) -> Result<(), AllocError> {
    match kind {
        Kind::Disk { sectors, bad } => {
            write!(told, " disk of {sectors}")?;
            for bad in bad.iter() {
                let kind = word_of(bad.kind);
                write!(told, ", {kind} of {} at {}", bad.range.len, bad.range.start)?;
            }
            Ok(())
        }
        Kind::Linear => told.push_str(" linear"),
        Kind::Stripe { chunk } => write!(told, " stripe of chunk {chunk}"),
        Kind::Zoned { chunk } => write!(told, " zoned of chunk {chunk}"),
        Kind::Limit { max, chunk } => write!(told, " limit of max {max} and chunk {chunk}"),
        Kind::Mirror { records } => write!(told, " mirror of records {records}"),
    }
}

fn word_of(kind: Status) -> &'static str {
    match kind {
        Status::Ok => "ok",
        Status::Io => "io",
        Status::Medium => "medium",
        Status::NoSpace => "nospace",
    }
}

fn tell_script(told: &mut String, pool: PoolId, script: &Script) -> Result<(), AllocError> {
    match pool {
        PoolId::FsBios => told.push_str("fs.bios ")?,
        PoolId::FsVecs => told.push_str("fs.vecs ")?,
        PoolId::Bios(DevId(dev)) => write!(told, "{dev}.bios ")?,
        PoolId::Records(DevId(dev)) => write!(told, "{dev}.records ")?,
    }
    if script.entries() == 0 {
        told.push_str(".")?;
    }
    for pos in 0..script.entries() {
        told.push_str(sign_of(script.allows(pos)))?;
    }
    writeln!(told, " then {}", sign_of(script.tail()))
}

fn sign_of(allowed: bool) -> &'static str {
    if allowed { "+" } else { "-" }
}

fn tell_write(told: &mut String, write: &Write) -> Result<(), AllocError> {
    writeln!(
        told,
        "task {} writes {} at {} of {} with tag {}",
        write.task, write.count, write.start, write.dev.0, write.tag
    )
}

impl Case for Meaning {
    fn holds(&self, rt: &(impl Abort + AllocGlobal)) -> bool {
        let scene = scene_of(rt, self.0);
        told(rt, &scene).as_str() == self.1
    }
}

/// A text, the byte at which its declarations end, and one more than the number of lines before it.
struct End(&'static str, u64, u64);

const ENDS: &[End] = &[
    End("", 0, 1),
    End("disk a 64", 9, 2),
    End("disk a 64\n", 10, 2),
    End("\r\n \n", 4, 3),
    End("disk a 64\nwrite 0 a 0 1 0\nwrite 0 a 1 1 0\n", 10, 2),
    End("# one\n\ndisk a 64\n# two\nwrite 0 a 0 1 0\n", 23, 5),
    End("disk a 64\n \twrite 0 a 0 1 0\n", 10, 2),
];

impl Case for End {
    // Whether the declarations of a text end at its first write.
    fn holds(&self, rt: &(impl Abort + AllocGlobal)) -> bool {
        let accepted = scene_of(rt, self.0).accepted;
        accepted.rest == self.1 && accepted.line == self.2
    }
}

#[test]
fn texts_mean_what_was_worked_out(rt: HostRuntime) {
    all_hold(&rt, MEANINGS);
    all_hold(&rt, ENDS);
}
