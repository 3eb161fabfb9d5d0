//! Changes of a node where it stands.
ghost use Rattle.std.specs.Prelude.{◌-◌, ◌^◌, ◌<◌};
ghost use Rattle.bio_records.specs.Items.{item_of, IsAlone};
ghost use Rattle.bio_books.specs.Books.{lowered, raised, told, with_kept_part};
ghost use Rattle.bio_books.specs.Views.{bio_of, IsAlonePart};

use crate::node::Node;
use crate::places::Change;
use bio_records::BioElement;
use stack_base::Status;

/// A node gets a child, and waits for it (`bio_inc_remaining`, `block/bio.c`).
#[derive(Drop)]
pub struct Raise;

impl Change<Node> for Raise {
    ghost applies = { λ _ node. node.count < 2 ^ 64 - 1 };

    ghost after = { λ _. raised };

    fn change(self, node: &mut Node) {
        node.count += 1;
    }
}

/// A node keeps a part.
#[derive(Drop)]
pub struct Keep {
    pub part: BioElement,
}

impl Change<Node> for Keep {
    ghost applies = { λ keep _. IsAlone keep.part };

    ghost after = { λ keep. with_kept_part (item_of keep.part) };

    fn change(self, node: &mut Node) {
        node.bio = Some(self.part);
    }
}

/// A node is told of an end that is not its last (`bio_remaining_done`, `block/bio.c`).
#[derive(Drop)]
pub struct Lower {
    pub status: Status,
    pub part: Option<BioElement>,
}

impl Change<Node> for Lower {
    ghost applies = { λ end node. (1 < node.count) × IsAlonePart end.part };

    ghost after = { λ end node. lowered (told node end.status (bio_of end.part)) };

    #[inline(always)] // as `alter`
    fn change(self, node: &mut Node) {
        let Lower { status, part } = self;
        node.tell(status, part);
        node.count -= 1;
    }
}
