ghost use Rattle.std.specs.Prelude.{◌≡◌, None};

use schedule_text::{Failed, Sink};
use std::io::Write;
use std::rt::Stdout;

/// Standard output. It tells nothing of the bytes that it took.
#[derive(Debug, Drop)]
pub struct StandardOutput {
    stdout: Stdout,
    faults: u64,
}

impl StandardOutput {
    /// Standard output, of which no write failed so far.
    pub fn new(stdout: Stdout) -> StandardOutput
        ensures { result ≡ record { stdout = stdout; faults = 0 } }
    {
        StandardOutput { stdout, faults: 0 }
    }
}

impl Sink for StandardOutput {
    ghost faults = { λ s. s.faults };

    ghost held = { λ s. None };

    /// A write that takes nothing of a piece with bytes is a fault: nothing says that another would.
    fn write(&mut self, from: &[u8]) -> Result<usize, Failed> {
        match self.stdout.write(from) {
            Ok(n) if n > 0 || from.is_empty() => Ok(n),
            _ => {
                self.faults = self.faults.saturating_add(1);
                Err(Failed)
            }
        }
    }
}
