// The text that tells a comparison, or why there is none.
ghost use Rattle.std.specs.Prelude.{◌≡◌, IfOk, Some, string_bytes};
ghost use Rattle.compare.specs.Outcomes.{stop_values};
ghost use Rattle.compare.specs.Lines.{report_text, stop_text, unreadable_text};

use crate::comparison::Comparison;
use crate::stop::{Side, Stop};
use std::alloc::{AllocError, Global};
use std::fmt;

// A line for each difference, one for the addresses that one plan alone has, and one that counts.
impl fmt::Display for Comparison {
    ghost output = { λ c. Some (report_text c) };

    fn fmt<W: fmt::Write>(&self, f: &mut fmt::Formatter<W>) -> fmt::Result {
        let compared = self.compared;
        let differ = self.differences.len();
        let lone = self.only;
        for difference in &self.differences {
            writeln!(f, "{difference}")?;
        }
        if let Some(only) = lone {
            writeln!(f, "{only}")?;
        }
        writeln!(f, "{compared} compared, {differ} differ")
    }
}

pub fn report(heap: Global, comparison: &Comparison) -> Result<String, AllocError>
    ensures { IfOk result (λ s. string_bytes s ≡ report_text comparison.now) }
{
    format!(in heap; "{comparison}")
}

// The line for a comparison that ended early: names the file that is no store, and says why.
pub fn stop_line(
    heap: Global,
    old_file: &str,
    new_file: &str,
    stop: &Stop,
) -> Result<String, AllocError>
    ensures { IfOk result (λ s. string_bytes s ≡ stop_text old_file.now new_file.now (stop_values stop.now)) }
{
    let Stop { side, refusal, .. } = *stop;
    let file = match side {
        Side::Old => old_file,
        Side::New => new_file,
    };
    let number = refusal.number();
    let meaning = refusal.meaning();
    format!(in heap; "plandiff: {file}: {number}: {meaning}")
}

// The line for a file that cannot be read.
pub fn unreadable_line(heap: Global, file: &str, reason: &str) -> Result<String, AllocError>
    ensures { IfOk result (λ s. string_bytes s ≡ unreadable_text file.now reason.now) }
{
    format!(in heap; "plandiff: {file}: cannot be read: {reason}")
}
