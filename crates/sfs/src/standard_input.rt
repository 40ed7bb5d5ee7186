ghost use Rattle.std.specs.Prelude.{◌≡◌, None};

use schedule_text::{Failed, Source};
use std::io::Read;
use std::rt::Stdin;

/// Standard input. It tells nothing of the bytes that are left.
#[derive(Debug, Drop)]
pub struct StandardInput {
    stdin: Stdin,
    faults: u64,
}

impl StandardInput {
    /// Standard input, of which no read failed so far.
    pub fn new(stdin: Stdin) -> StandardInput
        ensures { result ≡ record { stdin = stdin; faults = 0 } }
    {
        StandardInput { stdin, faults: 0 }
    }
}

impl Source for StandardInput {
    ghost faults = { λ s. s.faults };

    ghost left = { λ s. None };

    fn read(&mut self, into: &mut [u8]) -> Result<usize, Failed> {
        match self.stdin.read(into) {
            Ok(n) => Ok(n),
            Err(_) => {
                self.faults = self.faults.saturating_add(1);
                Err(Failed)
            }
        }
    }
}
