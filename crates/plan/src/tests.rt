// Which lists of words are a command.
use crate::{Plan, WordsFault, plan_words};
use std::alloc::Global;
use std::test::Fail;

// The plan of words that are separated by spaces, as a text.
fn plan(alloc: Global, text: &str) -> Result<String, Fail> {
    let mut words = Vec::new(alloc);
    for word in text.split_whitespace() {
        words.push(String::from_str(alloc, word)?)?;
    }
    match plan_words(alloc, words.as_slice()) {
        Ok(Plan::Run { dir: None }) => Ok(String::from_str(alloc, "run")?),
        Ok(Plan::Run { dir: Some(dir) }) => {
            let dir = dir.into_string();
            Ok(format!(in alloc; "run in {dir}")?)
        }
        Ok(Plan::Check) => Ok(String::from_str(alloc, "check")?),
        Ok(Plan::Make { n, dir: None }) => Ok(format!(in alloc; "make {n}")?),
        Ok(Plan::Make { n, dir: Some(dir) }) => {
            let dir = dir.into_string();
            Ok(format!(in alloc; "make {n} in {dir}")?)
        }
        Err(WordsFault::Usage) => Ok(String::from_str(alloc, "usage")?),
        Err(WordsFault::NoMemory) => Ok(String::from_str(alloc, "no memory")?),
    }
}

#[test]
fn each_list_of_words_has_its_answer(rt: HostRuntime) -> Result<(), Fail> {
    let a = rt.alloc();
    for (words, want) in [
        ("run", "run"),
        ("run --dir D", "run in D"),
        ("run --dir=D", "run in D"),
        ("run --dir=a=b", "run in a=b"),
        ("check", "check"),
        ("make 1", "make 1"),
        ("make 20000 --dir D", "make 20000 in D"),
        ("make --dir D 7", "make 7 in D"),
        ("make --dir=D 7", "make 7 in D"),
        ("make 7 --dir=7", "make 7 in 7"),
        ("make --dir 8 7", "make 7 in 8"),
        ("", "usage"),
        ("run x", "usage"),
        ("run --dir", "usage"),
        ("run --dir=", "usage"),
        ("run --dir -x", "usage"),
        ("run --dir=-x", "usage"),
        ("run --dir D --dir D", "usage"),
        ("run -- --dir D", "usage"),
        ("--dir D run", "usage"),
        ("check --dir D", "usage"),
        ("make", "usage"),
        ("make 0", "usage"),
        ("make 01", "usage"),
        ("make +1", "usage"),
        ("make 20001", "usage"),
        ("make 99999999999999999999999999", "usage"),
        ("make 1 2", "usage"),
        ("make --dir D", "usage"),
        ("make --dir D 1 --dir D", "usage"),
        ("help", "usage"),
        ("--help", "usage"),
    ] {
        let given = plan(a, words)?;
        assert!(rt; given.as_str() == want, "at {words}");
    }
    Ok(())
}
