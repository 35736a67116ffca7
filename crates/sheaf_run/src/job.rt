ghost use Rattle.std.specs.Prelude.{◌≡◌, map, string_bytes};
ghost use Rattle.sheaf_run.specs.Answers.{job_of};

/// What the words can ask for.
#[derive(Clone, Copy, Debug, PartialEq, Eq)]
pub enum Job {
    /// To serve all commands, and write the transcript.
    Solve,
    /// To see whether the input is a sheaf, and count what it has.
    Check,
}

/// The job that the words ask for; None where they are refused.
pub fn job_of(words: &[String]) -> Option<Job>
    ensures { result ≡ job_of (map string_bytes words.now) }
{
    match words {
        [word] if word.as_str() == "solve" => Some(Job::Solve),
        [word] if word.as_str() == "check" => Some(Job::Check),
        _ => None,
    }
}
