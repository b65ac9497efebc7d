// What the words ask for.
ghost use Rattle.std.specs.Prelude.{◌≡◌, ◌↔◌, ◌≤◌, ℕ, Option, Some, None, Ok, Err, IfOk, map, string_bytes, option_map};
ghost use Rattle.cl_base.specs.declared.text.Text.{Text};
ghost use Rattle.plan.specs.Words.{plan_of};

use crate::asked::{Asked, asked_by};
use cl_base::{NoMemory, Text};
use std::alloc::Global;

/// What the words ask for.
#[derive(Debug, Drop)]
pub enum Plan {
    /// To run the scenario that is read, on disks in memory or in this folder.
    Run { dir: Option<Text> },
    /// To read a scenario and write its orders.
    Check,
    /// To run a generated scenario of so many messages, 1 to 20,000, on disks in memory or in this folder.
    Make { n: u64, dir: Option<Text> },
}

/// Why the words weren't read.
#[derive(Clone, Copy, Debug, PartialEq, Eq)]
pub enum WordsFault {
    /// They aren't those of a command.
    Usage,
    /// No memory was there.
    NoMemory,
}

impl From<NoMemory> for WordsFault {
    ghost use Rattle.std.specs.Prelude.{◌≡◌};
    ghost use Rattle.plan.specs.declared.words.WordsFault.TheVariants as faults;

    ghost from_gives = { λ _ e. e ≡ faults.NoMemory };

    fn from(_: NoMemory) -> WordsFault {
        WordsFault::NoMemory
    }
}

fn text_of(alloc: Global, dir: Option<&str>) -> Result<Option<Text>, NoMemory>
    ensures { IfOk result (λ text. text ≡ option_map (λ d. d.now) dir.entry) }
{
    match dir {
        Some(dir) => Ok(Some(Text::of(alloc, dir)?)),
        None => Ok(None),
    }
}

// What the words ask for.
fn planned(alloc: Global, words: &[String]) -> Result<Plan, WordsFault>
    ensures plan { IfOk result (λ plan. plan_of (map string_bytes words.now) ≡ Some plan) }
    ensures usage { (result ≡ Err WordsFault.Usage) ↔ (plan_of (map string_bytes words.now) ≡ None) }
{
    match asked_by(words) {
        Some(Asked::Run(dir)) => Ok(Plan::Run {
            dir: text_of(alloc, dir)?,
        }),
        Some(Asked::Check) => Ok(Plan::Check),
        Some(Asked::Make(n, dir)) => Ok(Plan::Make {
            n,
            dir: text_of(alloc, dir)?,
        }),
        None => Err(WordsFault::Usage),
    }
}

/// What the words ask for: `run`, `check` or `make N`, with one folder by `--dir D` or `--dir=D` for `run` and `make`.
pub fn plan_words(alloc: Global, words: &[String]) -> Result<Plan, WordsFault>
    ensures plan { IfOk result (λ plan. plan_of (map string_bytes words.now) ≡ Some plan) }
    ensures usage { (result ≡ Err WordsFault.Usage) ↔ (plan_of (map string_bytes words.now) ≡ None) }
    ensures made { (n : ℕ) (dir : Option Text) → result ≡ Ok (Plan.Make n dir) → (1 ≤ n) × (n ≤ 20000) }
{
    planned(alloc, words)
}
