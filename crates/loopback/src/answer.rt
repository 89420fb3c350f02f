// The bytes that are printed for the answer to a text.
ghost use Rattle.std.specs.Prelude.{◌≡◌, IfOk, string_bytes};
ghost use Rattle.loopback.specs.Printed.{printed as bytes_of};

use numbered_refusal::Refusal;
use port::totals::Totals;
use std::alloc::{AllocError, Global};
use text::refusal::TextRefusal;

// The two lines that are printed: names, and the values in that order, byte 10 after each.
pub fn printed(heap: Global, answer: &Result<Totals, TextRefusal>) -> Result<String, AllocError>
    ensures { IfOk result (λ s. string_bytes s ≡ bytes_of answer.now) }
{
    match *answer {
        Ok(
            Totals {
                accepted,
                dropped,
                mended,
            },
        ) => format!(in heap; "accepted dropped mended\n{accepted} {dropped} {mended}\n"),
        Err(refusal) => {
            let number = refusal.number();
            let row = refusal.place();
            let column = refusal.column();
            format!(in heap; "refusal row column\n{number} {row} {column}\n")
        }
    }
}
