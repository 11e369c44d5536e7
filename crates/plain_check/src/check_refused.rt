use gdi_kinds::NoMemory;
use outcome_text::OutputRefused;
use plain_run::RunRefused;

/// Why an output isn't checked. Where several causes stand together the first of this order is told: what is wrong with the
/// load files, with the script, with the output; no room for the load.
#[derive(Clone, Copy, Debug, PartialEq, Eq)]
pub enum CheckRefused {
    /// The texts aren't run, for this cause.
    Texts(RunRefused),
    /// The first wrong line of the output, from 1, as `read_outcomes` has it.
    BadOutput { line: u64 },
}

impl From<RunRefused> for CheckRefused {
    ghost use Rattle.std.specs.Prelude.{◌≡◌};
    ghost use Rattle.plain_check.specs.declared.check_refused.CheckRefused.TheVariants.{Texts};

    ghost from_gives = { λ why refused. refused ≡ Texts why };

    fn from(why: RunRefused) -> CheckRefused {
        CheckRefused::Texts(why)
    }
}

impl From<NoMemory> for CheckRefused {
    ghost use Rattle.std.specs.Prelude.{◌≡◌};
    ghost use Rattle.plain_run.specs.declared.run_refused.RunRefused.TheVariants.{NoMemory as OutOfMemory};
    ghost use Rattle.plain_check.specs.declared.check_refused.CheckRefused.TheVariants.{Texts};

    ghost from_gives = { λ _ refused. refused ≡ Texts OutOfMemory };

    fn from(_refused: NoMemory) -> CheckRefused {
        CheckRefused::Texts(RunRefused::NoMemory)
    }
}

impl From<OutputRefused> for CheckRefused {
    ghost use Rattle.std.specs.Prelude.{◌≡◌};
    ghost use Rattle.plain_check.specs.Refusals.{refused_by};

    ghost from_gives = { λ why refused. refused ≡ refused_by why };

    fn from(why: OutputRefused) -> CheckRefused {
        match why {
            OutputRefused::Bad { line } => CheckRefused::BadOutput { line },
            OutputRefused::NoMemory => CheckRefused::Texts(RunRefused::NoMemory),
        }
    }
}
