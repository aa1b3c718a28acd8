// The words of the command line.
ghost use Rattle.std.specs.Prelude.{◌≡◌, ◌+◌, ◌*◌, ◌≤◌, min, MatchOption};
ghost use Rattle.std.specs.List.{AllByRecursion};
ghost use Rattle.luo_scan.specs.Bytes.{IsDigit};
ghost use Rattle.luo_scan.specs.Spellings.{value_after};
ghost use Rattle.luo_answer.specs.Words.{Command, texts, is_led, analyse_of, format_of, run_of, sample_of, list_of, audit_of, command_of};
ghost use Rattle.luo_answer.specs.inner.Requests.{Asks, IsNumber, IsRequest, IsRequestOf, Keeps};

use crate::refusal::{Line, Refusal};
use luo_num::MAX;
use luo_num::limits::{SAMPLE_LIMIT, SAMPLE_LIMIT_LINE, SIZE_LIMIT, SIZE_LIMIT_LINE};

/// Numbers of words from here on are not told apart. No count is larger than the number before it.
pub const NUMBER_CAP: u128 = MAX + 1;

/// What the words ask for.
#[derive(Clone, Copy)]
pub enum Request<'w> {
    /// The report of a file for the sizes up to `last`, a number up to `NUMBER_CAP`.
    Analyse {
        file: &'w str,
        last: u128,
    },
    /// The canonical text of a file.
    Format {
        file: &'w str,
    },
    /// What the procedure of a name charges on the structure of a text.
    Run {
        file: &'w str,
        procedure: &'w str,
        structure: &'w str,
    },
    /// The summary of the sample of a number at size `last`, both numbers up to `NUMBER_CAP`.
    Sample {
        number: u128,
        last: u128,
    },
    /// The structures of a type of size `last`, from the place `start` on, and at most `most` of them, all three numbers
    /// up to `NUMBER_CAP`.
    Listing {
        file: &'w str,
        name: &'w str,
        last: u128,
        start: u128,
        most: u128,
    },
    /// The report of a file for the sizes up to `last`, found again by so many workers, both numbers
    /// up to `NUMBER_CAP`.
    Audit {
        file: &'w str,
        last: u128,
        workers: u128,
    },
}

// Whether there is a first digit, and it isn't 0 where others follow it.
fn is_led(word: &[u8]) -> bool
    ensures { result ≡ is_led word.now }
{
    match word {
        [] => false,
        [_] => true,
        [first, ..] => *first != b'0',
    }
}

// The number that a word stands for, or `NUMBER_CAP` where it is larger.
#[tactic(auto, using(crate::proofs::Numbers::unled, crate::proofs::Numbers::numbered))]
fn number(word: &[u8]) -> Option<u128>
    ensures { IsNumber word.now result }
{
    if !is_led(word) {
        return None;
    }
    digits(word)
}

// A number with one more digit, or `NUMBER_CAP` where it is larger.
fn longer(value: u128, digit: u8) -> u128
    requires value { value ≤ NUMBER_CAP }
    requires digit { digit ≤ 9 }
    ensures { result ≡ min (10 * value + digit) NUMBER_CAP }
{
    if value > NUMBER_CAP / 10 {
        return NUMBER_CAP;
    }
    (10 * value + u128::from(digit)).min(NUMBER_CAP)
}

// The number that digits give, or `NUMBER_CAP` where it is larger.
fn digits(word: &[u8]) -> Option<u128>
    ensures { MatchOption result (AllByRecursion IsDigit word.now → ⊥)
        (λ v. AllByRecursion IsDigit word.now × (v ≡ min (value_after 0 word.now) NUMBER_CAP)) }
{
    let mut value = 0u128;
    for digit in word {
        if *digit < b'0' || *digit > b'9' {
            return None;
        }
        value = longer(value, *digit - b'0');
    }
    Some(value)
}

// FILE N
fn analyse(rest: &[String]) -> Option<Request<'_>>
    ensures { IsRequestOf (analyse_of (texts rest.now)) result }
{
    let [file, last] = rest else {
        return None;
    };
    match number(last.as_bytes()) {
        Some(last) => Some(Request::Analyse {
            file: file.as_str(),
            last,
        }),
        None => None,
    }
}

// FILE
fn format(rest: &[String]) -> Option<Request<'_>>
    ensures { IsRequestOf (format_of (texts rest.now)) result }
{
    let [file] = rest else {
        return None;
    };
    Some(Request::Format {
        file: file.as_str(),
    })
}

// FILE PROC STRUCTURE
fn run(rest: &[String]) -> Option<Request<'_>>
    ensures { IsRequestOf (run_of (texts rest.now)) result }
{
    let [file, procedure, structure] = rest else {
        return None;
    };
    Some(Request::Run {
        file: file.as_str(),
        procedure: procedure.as_str(),
        structure: structure.as_str(),
    })
}

// NUMBER N
fn sample(rest: &[String]) -> Option<Request<'_>>
    ensures { IsRequestOf (sample_of (texts rest.now)) result }
{
    let [first, second] = rest else {
        return None;
    };
    let Some(number) = self::number(first.as_bytes()) else {
        return None;
    };
    match self::number(second.as_bytes()) {
        Some(last) => Some(Request::Sample { number, last }),
        None => None,
    }
}

// FILE TYPE N START COUNT
fn list(rest: &[String]) -> Option<Request<'_>>
    ensures { IsRequestOf (list_of (texts rest.now)) result }
{
    let [file, name, last, start, most] = rest else {
        return None;
    };
    let last = number(last.as_bytes())?;
    let start = number(start.as_bytes())?;
    let most = number(most.as_bytes())?;
    Some(Request::Listing {
        file: file.as_str(),
        name: name.as_str(),
        last,
        start,
        most,
    })
}

// FILE N WORKERS
fn audit(rest: &[String]) -> Option<Request<'_>>
    ensures { IsRequestOf (audit_of (texts rest.now)) result }
{
    let [file, last, workers] = rest else {
        return None;
    };
    let last = number(last.as_bytes())?;
    let workers = number(workers.as_bytes())?;
    Some(Request::Audit {
        file: file.as_str(),
        last,
        workers,
    })
}

// The request of the command whose form the words have.
fn request_of(words: &[String]) -> Option<Request<'_>>
    ensures { IsRequestOf (command_of (texts words.now)) result }
{
    let [name, rest @ ..] = words else {
        return None;
    };
    if name.as_str() == "analyse" {
        return analyse(rest);
    }
    if name.as_str() == "format" {
        return format(rest);
    }
    if name.as_str() == "run" {
        return run(rest);
    }
    if name.as_str() == "sample" {
        return sample(rest);
    }
    if name.as_str() == "list" {
        return list(rest);
    }
    if name.as_str() == "audit" {
        return audit(rest);
    }
    None
}

// The request, where its words pass no limit by themselves.
fn within(request: Request<'_>) -> Result<Request<'_>, Refusal>
    ensures { (command : Command) → IsRequest command request.entry
        → Keeps command request.entry result }
{
    if let Request::Sample { number, last } = request {
        if number > SAMPLE_LIMIT {
            return Err(Refusal::Limit(Line::Fixed(SAMPLE_LIMIT_LINE)));
        }
        if last > u128::from(SIZE_LIMIT) {
            return Err(Refusal::Limit(Line::Fixed(SIZE_LIMIT_LINE)));
        }
    }
    Ok(request)
}

/// What the words ask for. It takes no memory.
///
/// `Usage` says that the words have the form of no command, and `Limit` that a number of theirs is too large, where no file
/// has to be read to say so: of `sample` the number, or else the size. There is no other refusal.
pub fn asked(words: &[String]) -> Result<Request<'_>, Refusal>
    ensures { Asks (texts words.now) result }
{
    match request_of(words) {
        Some(request) => within(request),
        None => Err(Refusal::Usage),
    }
}
