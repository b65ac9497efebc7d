// What the words ask for, read in place.
ghost use Rattle.std.specs.Prelude.{◌≡◌, ◌↔◌, IsTrue, map, string_bytes, option_map};
ghost use Rattle.cluster_tool.specs.Words.{is_folder, services_of, describe_of, recording_of, verify_of, tool_of, tool_from, TakesDisks};

/// What the words ask for. A folder is named by its word, which isn't empty and doesn't begin with a dash.
#[derive(Clone, Copy)]
pub enum Asked<'a> {
    /// `tool describe S DIR`: what the files of a member with 1 to 3 services stand for.
    Describe(u8, &'a str),
    /// `tool recording-log DIR`: the entries of the recording log.
    RecordingLog(&'a str),
    /// `tool verify DIR DIR`: how far the logs of two members are the same.
    Verify(&'a str, &'a str),
}

/// A folder has a name that doesn't begin with a dash.
fn is_folder(word: &str) -> bool
    ensures { result ≡ is_folder word.now }
{
    let word = word.as_bytes();
    !word.is_empty() && word[0] != b'-'
}

/// The number of services, 1 to 3, that a word spells by one digit.
fn services_of(word: &str) -> Option<u8>
    ensures { result ≡ services_of word.now }
{
    if word == "1" {
        return Some(1);
    }
    if word == "2" {
        return Some(2);
    }
    if word == "3" {
        return Some(3);
    }
    None
}

fn describe_of<'a>(services: &str, folder: &'a str) -> Option<Asked<'a>>
    ensures { option_map tool_from result ≡ describe_of services.now folder.now }
{
    match services_of(services) {
        Some(services) if is_folder(folder) => Some(Asked::Describe(services, folder)),
        _ => None,
    }
}

fn recording_of(folder: &str) -> Option<Asked<'_>>
    ensures { option_map tool_from result ≡ recording_of folder.now }
{
    if is_folder(folder) {
        return Some(Asked::RecordingLog(folder));
    }
    None
}

fn verify_of<'a>(first: &'a str, second: &'a str) -> Option<Asked<'a>>
    ensures { option_map tool_from result ≡ verify_of first.now second.now }
{
    if is_folder(first) && is_folder(second) {
        return Some(Asked::Verify(first, second));
    }
    None
}

/// What the words ask for, of which the first is `tool`. None where they aren't those of a listing.
pub fn asked_by(words: &[String]) -> Option<Asked<'_>>
    ensures { option_map tool_from result ≡ tool_of (map string_bytes words.now) }
{
    match words {
        [tool, listing, folder] if tool.as_str() == "tool" && listing.as_str() == "recording-log" =>
            { recording_of(folder.as_str()) }
        [tool, listing, one, two] if tool.as_str() == "tool" => {
            if listing.as_str() == "describe" {
                return describe_of(one.as_str(), two.as_str());
            }
            if listing.as_str() == "verify" {
                return verify_of(one.as_str(), two.as_str());
            }
            None
        }
        _ => None,
    }
}

/// The words name the folders of so many disks. Words that aren't those of a listing take every number.
pub fn takes_disks(words: &[String], disks: usize) -> bool
    ensures { IsTrue result ↔ TakesDisks (tool_of (map string_bytes words.now)) disks }
{
    match asked_by(words) {
        Some(Asked::Describe(..) | Asked::RecordingLog(_)) => disks == 1,
        Some(Asked::Verify(..)) => disks == 2,
        None => true,
    }
}
