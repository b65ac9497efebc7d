// What the words ask for, read in place.
ghost use Rattle.std.specs.Prelude.{◌≡◌, map, string_bytes, option_map};
ghost use Rattle.plan.specs.Words.{is_dir, joined_dir, spaced_dir, dir_of, run_plan, check_plan, make_in, make_plan, plan_of, plan_from};

use crate::number::number_of;

/// What the words ask for. A folder is named by its word.
#[derive(Clone, Copy)]
pub enum Asked<'a> {
    Run(Option<&'a str>),
    Check,
    Make(u64, Option<&'a str>),
}

/// A folder has a name that doesn't begin with a dash.
fn is_dir(word: &str) -> bool
    ensures { result ≡ is_dir word.now }
{
    let word = word.as_bytes();
    !word.is_empty() && word[0] != b'-'
}

/// The folder of a word `--dir=D`.
#[tactic(auto, unfolding(crate::specs::Words::joined_dir))]
fn joined_dir(word: &str) -> Option<&str>
    ensures { option_map (λ d. d.now) result ≡ joined_dir word.now }
{
    match word.split_once('=') {
        Some((option, dir)) => {
            if option == "--dir" && is_dir(dir) {
                return Some(dir);
            }
            None
        }
        None => None,
    }
}

/// The folder behind a word `--dir`.
#[tactic(auto, unfolding(crate::specs::Words::spaced_dir))]
fn spaced_dir<'a>(option: &str, dir: &'a str) -> Option<&'a str>
    ensures { option_map (λ d. d.now) result ≡ spaced_dir option.now dir.now }
{
    if option == "--dir" && is_dir(dir) {
        return Some(dir);
    }
    None
}

/// The folder that the words name, all of them.
fn dir_of(words: &[String]) -> Option<&str>
    ensures { option_map (λ d. d.now) result ≡ dir_of (map string_bytes words.now) }
{
    match words {
        [word] => joined_dir(word.as_str()),
        [option, dir] => spaced_dir(option.as_str(), dir.as_str()),
        _ => None,
    }
}

fn run_asked(words: &[String]) -> Option<Asked<'_>>
    ensures { option_map plan_from result ≡ run_plan (map string_bytes words.now) }
{
    if words.is_empty() {
        return Some(Asked::Run(None));
    }
    match dir_of(words) {
        Some(dir) => Some(Asked::Run(Some(dir))),
        None => None,
    }
}

fn check_asked(words: &[String]) -> Option<Asked<'_>>
    ensures { option_map plan_from result ≡ check_plan (map string_bytes words.now) }
{
    if words.is_empty() {
        return Some(Asked::Check);
    }
    None
}

/// A generated scenario of so many messages in a folder, where both were read.
fn make_in(n: Option<u64>, dir: Option<&str>) -> Option<Asked<'_>>
    ensures { option_map plan_from result ≡ make_in n (option_map (λ d. d.now) dir.entry) }
{
    match (n, dir) {
        (Some(n), Some(dir)) => Some(Asked::Make(n, Some(dir))),
        _ => None,
    }
}

fn make_asked(words: &[String]) -> Option<Asked<'_>>
    ensures { option_map plan_from result ≡ make_plan (map string_bytes words.now) }
{
    match words {
        [n] => match number_of(n.as_str()) {
            Some(n) => Some(Asked::Make(n, None)),
            None => None,
        },
        [a, b] => match make_in(number_of(a.as_str()), joined_dir(b.as_str())) {
            Some(asked) => Some(asked),
            None => make_in(number_of(b.as_str()), joined_dir(a.as_str())),
        },
        [a, b, c] => match make_in(number_of(a.as_str()), spaced_dir(b.as_str(), c.as_str())) {
            Some(asked) => Some(asked),
            None => make_in(number_of(c.as_str()), spaced_dir(a.as_str(), b.as_str())),
        },
        _ => None,
    }
}

/// What the words ask for. None where they aren't those of a command.
pub fn asked_by(words: &[String]) -> Option<Asked<'_>>
    ensures { option_map plan_from result ≡ plan_of (map string_bytes words.now) }
{
    let Some((command, rest)) = words.split_first() else {
        return None;
    };
    if command.as_str() == "run" {
        return run_asked(rest);
    }
    if command.as_str() == "check" {
        return check_asked(rest);
    }
    if command.as_str() == "make" {
        return make_asked(rest);
    }
    None
}
