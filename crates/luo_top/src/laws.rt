// Laws of the outcome.
ghost use Rattle.luo_top.specs.Laws.{OutcomeIsOne, OutcomeComes, OutcomeIsTold, OutcomeIsAsWritten, SamplesAreTaken, AuditsAgree, AuditsReport};
ghost use Rattle.luo_top.specs.Laws.{NumbersAreSpelled, AnalyseIsSpelled, FormatIsSpelled, RunIsSpelled, ListIsSpelled, SampleIsSpelled, AuditIsSpelled};

mod sure;

pub use sure::luo_sure;

/// Over what a source tells, and for all words, at most one answer is the outcome.
pub fn outcome_is_one()
    ensures { OutcomeIsOne }
{}

/// It can't be that no answer is the outcome.
pub fn outcome_comes()
    ensures { OutcomeComes }
{}

/// Where each file of the words is told, so is the outcome.
pub fn outcome_is_told()
    ensures { OutcomeIsTold }
{}

/// The outcome over the core form of a source is the one by what the source means as it is written.
pub fn outcome_is_as_written()
    ensures { OutcomeIsAsWritten }
{}

/// Each command is asked for by the words of its form, and by no others. A number word is `0`, or a digit from 1 to 9
/// followed by digits.
pub fn commands_are_spelled()
    ensures analyse { AnalyseIsSpelled }
    ensures format { FormatIsSpelled }
    ensures run { RunIsSpelled }
    ensures sample { SampleIsSpelled }
    ensures list { ListIsSpelled }
    ensures audit { AuditIsSpelled }
    ensures numbers { NumbersAreSpelled }
{}

/// A sample whose words pass no limit is refused for nothing but a number that is too large: its text has tokens and
/// derives a source, which passes no limit, breaks no rule, and has a well-founded core form.
pub fn samples_are_taken()
    ensures { SamplesAreTaken }
{}

/// Two audits of one file up to one size have one output, whatever their numbers of workers, and it is
/// that of `analyse` wherever both have one.
pub fn audits_agree()
    ensures workers { AuditsAgree }
    ensures report { AuditsReport }
{}
