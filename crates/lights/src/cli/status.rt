// How a command ended, as the exit status gives it.
ghost use Rattle.std.specs.Iterator.{IsFinite};

// Each is worse than those before it.
#[derive(Clone, Copy, PartialEq, Eq, PartialOrd, Ord)]
pub enum Status {
    Done,
    // something was refused
    Refused,
    // bad arguments, or a file that can't be read
    Failed,
    // output that can't be written, or standard input that can't be read: the program stops
    Lost,
    // output that nobody reads any more: the program stops and says nothing
    Unread,
}

impl Status {
    // Whether the program stops.
    pub fn stops(self) -> bool {
        self >= Status::Lost
    }
}

// The worst of what commands give that are done one by one, as far as the program doesn't stop.
pub fn worst<A: Iterator<Item = Status>>(answers: A) -> Status
    requires { A.Iterator.can_next answers × IsFinite (A.Iterator.remaining answers) }
{
    let mut worst = Status::Done;
    for status in answers {
        worst = worst.max(status);
        if worst.stops() {
            return worst;
        }
    }
    worst
}
