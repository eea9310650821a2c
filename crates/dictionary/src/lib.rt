// The dictionary: the walk along the fields of a body by its table, and the verdict.

#![tactic(auto)]

ghost use Rattle.std.specs.Prelude.{◌≡◌};
ghost use Rattle.dictionary.specs.declared.Unclean.TheVariants.{Found};

// The reason that a rule names, with a tag.
#[derive(Clone, Copy, PartialEq, Eq, Debug)]
pub struct Finding {
    pub reason: u32,
    pub tag: u32,
}

// What a rule says of a field: nothing, or a finding.
type Says = Result<(), Finding>;

// Why a body is not clean: the first finding, or refusal 10.
#[derive(Clone, Copy, PartialEq, Eq, Debug)]
pub enum Unclean {
    Found(Finding),
    NoBody,
}

impl From<Finding> for Unclean {
    ghost from_gives = { λ f u. u ≡ Found f };

    fn from(f: Finding) -> Unclean {
        Unclean::Found(f)
    }
}

// The verdict on a body.
pub type Verdict = Result<(), Unclean>;

mod ends;
mod groups;
mod members;
mod nested;
mod rules;
mod walk;

pub use walk::verdict_on;
