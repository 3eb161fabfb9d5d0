//! Things that a lock can guard.
ghost use Rattle.std.specs.Prelude.{◌≡◌};

/// A thing with a machine: it serves requests one after the other, and a relation says how each leads it on and what it replies.
pub trait Thing {
    /// What is asked of the thing.
    type Request;

    /// What it replies.
    type Reply;

    /// What the machine sees of the thing. No value of this type is ever made, nor of the next three.
    type Data;

    /// What the history keeps of a request.
    type Asked;

    /// What the history keeps of a reply.
    type Told;

    /// What stays as it is, whatever is asked.
    type Mark;

    ghost plain: { Self → Self.Data };

    ghost mark: { Self → Self.Mark };

    ghost asked: { Self.Request → Self.Asked };

    ghost told: { Self.Reply → Self.Told };

    /// Whether a thing of this mark can be asked so.
    ghost fits: { Self.Mark → Self.Request → Type 0 };

    /// What a thing of this mark owes of each reply to a request, beside its place in the history: so what is no plain data may go in and come
    /// back.
    ghost owes: { Self.Mark → Self.Request → Self.Reply → Type 0 };

    /// The machine: the data before, what is asked and what is told, and the data after.
    ghost answers: { Self.Data → Self.Asked → Self.Told → Self.Data → Type 0 };

    /// Serves one request.
    fn serve(&mut self, request: Self::Request) -> Self::Reply
        requires { fits (mark self.old) request }
        ensures step { answers (plain self.old) (asked request) (told result) (plain self.new) }
        ensures owed { owes (mark self.old) request result }
        ensures mark { mark self.new ≡ mark self.old };
}
