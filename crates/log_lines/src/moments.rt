//! The time of day of a line.
ghost use Rattle.std.specs.Prelude.{◌↔◌, IfSome, IsSome};
ghost use Rattle.log_lines.specs.Utc.{HasUtc, IsUtc};

use arrayvec::ArrayString;
use jiff_core::Timestamp;
use jiff_fmt::temporal::DateTimePrinter;

/// How many nanoseconds a millisecond has.
const NANOSECONDS: i128 = 1_000_000;

/// So many milliseconds after 1970 began, as RFC 3339 writes it, in UTC: `2026-11-27T22:48:00.123Z`. None behind the last second
/// that a `Timestamp` has, `9999-12-30T22:00:00Z`.
pub fn utc(milliseconds: u64) -> Option<ArrayString<33>>
    ensures shown { IfSome result (λ text. IsUtc milliseconds text.bytes) }
    ensures has { IsSome result ↔ HasUtc milliseconds }
{
    let nanosecond = i128::from(milliseconds) * NANOSECONDS;
    match Timestamp::from_nanosecond(nanosecond) {
        Ok(instant) => {
            let printer = DateTimePrinter::new().precision(Some(3));
            Some(printer.timestamp_text(instant))
        }
        Err(_) => None,
    }
}
