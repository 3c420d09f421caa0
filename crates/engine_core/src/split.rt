// A core taken from an engine, and put together with its branch counts again.
ghost use Rattle.std.specs.Prelude.{◌≡◌};
ghost use Rattle.engine_core.specs.Core.{engine_of};

use crate::EngineCore;
use machine::Engine;
use word::WORDS;

impl From<Engine> for EngineCore {
    ghost from_gives = { λ e k. engine_of k e.loops ≡ e };

    // An engine without its branch counts.
    fn from(e: Engine) -> EngineCore {
        EngineCore {
            start: e.start,
            table: e.table,
            pending: e.pending,
            mask: e.mask,
            pc: e.pc,
            a: e.a,
            b: e.b,
            interrupt: e.interrupt,
            fault: e.fault,
            mode: e.mode,
            exec: e.exec,
            progress: e.progress,
        }
    }
}

impl EngineCore {
    // The engine that the core and branch counts are.
    pub fn with_counts(self, counts: [u8; WORDS]) -> Engine
        ensures { result ≡ engine_of self counts }
    {
        Engine {
            mode: self.mode,
            exec: self.exec,
            start: self.start,
            pc: self.pc,
            a: self.a,
            b: self.b,
            mask: self.mask,
            table: self.table,
            pending: self.pending,
            interrupt: self.interrupt,
            fault: self.fault,
            progress: self.progress,
            loops: counts,
        }
    }
}
