// A call's answer as document 01 numbers it, zero for success.
ghost use Rattle.std.specs.Prelude.{◌≡◌};
ghost use Rattle.machine.specs.Outcome.{error_number_of, number_of};

use machine::CallError;

pub fn error_number_of(error: CallError) -> u16
    ensures { result ≡ error_number_of error }
{
    match error {
        CallError::EmptyBurst => 1,
        CallError::UnlistedAddress => 2,
        CallError::OutsideRegister => 3,
        CallError::LoadRefused => 4,
        CallError::StartInUse => 5,
        CallError::MemoryInUse => 6,
        CallError::OutputHeld => 7,
        CallError::TooManyBeats => 8,
    }
}

// Of any call's answer: zero where it succeeds.
pub fn number_of<T>(call: &Result<T, CallError>) -> u16
    ensures { result ≡ number_of call.now }
{
    match call {
        Ok(_) => 0,
        Err(error) => error_number_of(*error),
    }
}
