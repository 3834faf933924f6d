//! What a person is told of a file that is refused.

use crate::Advice;
use refutation::LogKind;
use robinx::FormKind;
use std::alloc::AllocError;

/// What a file is to be.
fn kind_of_file(which: &str) -> &'static str {
    match which {
        "instance" => "instance (a league's file)",
        "solution" => "solution (a season's file)",
        "values" => "values (what a solver printed)",
        _ => "log",
    }
}

/// Says that a file can't be read, for this reason.
pub(crate) fn on_fault(
    advice: &mut Advice,
    which: &str,
    name: &str,
    reason: Option<&'static str>,
) -> Result<(), AllocError> {
    advice.say_all(&["robin: can't read the ", kind_of_file(which), ", "])?;
    advice.show(name.as_bytes())?;
    if let Some(reason) = reason {
        advice.say_all(&[": ", reason])?;
    }
    advice.end_line()
}

/// Says that a file has more bytes than its limit.
pub(crate) fn on_length(
    advice: &mut Advice,
    which: &str,
    name: &str,
    limit: usize,
) -> Result<(), AllocError> {
    advice.say_all(&["robin: the ", kind_of_file(which), ", "])?;
    advice.show(name.as_bytes())?;
    advice.say(", has more than ")?;
    advice.count(limit as u64)?;
    advice.say(" bytes, the most that are read\n")
}

/// The line of this number, from 1, without white bytes at its front; nothing where there is none.
fn line_at(bytes: &[u8], line: u32) -> &[u8] {
    match bytes
        .split(|byte| *byte == b'\n')
        .nth(line.saturating_sub(1) as usize)
    {
        Some(found) => found.trim_ascii(),
        None => &[],
    }
}

/// What was expected where a file has a fault of form of this kind.
fn expected(kind: FormKind) -> &'static str {
    match kind {
        FormKind::BadTag => "this is no tag: `<name attribute=\"value\">`, `<name/>` or `</name>`",
        FormKind::BadAttribute =>
            "an attribute is to be `name=\"value\"`, without `<` in the value",
        FormKind::RepeatedAttribute => "an attribute stands twice in the tag",
        FormKind::TooManyAttributes => "the tag has more than 64 attributes",
        FormKind::Truncated => "the file ends before its elements, its tag or its comment do",
        FormKind::BadNesting => "this tag doesn't belong here",
        FormKind::MissingElement => "an element that has to stand before is missing",
        FormKind::RepeatedElement => "this element may stand only once, and stood before",
        FormKind::MissingAttribute => "the tag lacks an attribute that has to be there",
        FormKind::BadNumber => "a number is to be decimal digits, and a list numbers joined by `;`",
        FormKind::NumberTooLarge => "a number is above 4294967295",
        FormKind::UnknownTeam => "the league has no team of that number",
        FormKind::UnknownSlot => "the season has no slot of that number",
        FormKind::SameTeam => "a team can't play itself",
        FormKind::BadChoice => "a word is none of those that may stand there",
        FormKind::UnsupportedClass => "constraints are CA1 to CA4, GA1, BR1, BR2, FA2 and SE1",
        FormKind::WrongCounts => "teams, slots or rounds aren't those of a double round robin",
        FormKind::TooMany => "there may be 20000 constraints and 10000 games, and this is one more",
    }
}

/// Whether a text stands in bytes.
fn holds(bytes: &[u8], text: &str) -> bool {
    let text = text.as_bytes();
    !text.is_empty() && bytes.windows(text.len()).any(|window| window == text)
}

/// How often the tag of a team begins in bytes, outside of comments.
fn team_tags(bytes: &[u8]) -> usize {
    let mut tags: usize = 0;
    let mut in_comment = false;
    for window in bytes.windows(6) {
        if in_comment {
            in_comment = !window.starts_with(b"-->");
        } else if window.starts_with(b"<!--") {
            in_comment = true;
        } else if window == b"<team ".as_slice() {
            tags = tags.saturating_add(1);
        }
    }
    tags
}

/// How the tags of some elements begin, with the attributes that have to stand there, each but the last with a space
/// behind it.
const WANTED: [(&str, &str); 12] = [
    ("<team", "id"),
    ("<slot", "id"),
    ("<Sche", "home away slot"),
    ("<CA1", "type teams max mode slots"),
    ("<CA2", "type teams1 teams2 max mode1 slots"),
    ("<CA3", "type teams1 teams2 max mode1 intp"),
    ("<CA4", "type teams1 teams2 max mode1 mode2 slots"),
    ("<GA1", "type meetings min max slots"),
    ("<BR1", "type teams intp mode2 slots"),
    ("<BR2", "type teams intp slots"),
    ("<FA2", "type teams intp slots"),
    ("<SE1", "type teams min"),
];

/// The attributes that have to stand in a tag that begins a line.
fn wanted_in(line: &[u8]) -> &'static str {
    for (front, names) in &WANTED {
        if line.starts_with(front.as_bytes()) {
            return *names;
        }
    }
    ""
}

/// Whether a line begins with the tag of a constraint.
fn is_constraint(line: &[u8]) -> bool {
    wanted_in(line).starts_with("type")
}

/// Whether some bytes are a white byte, a name and `=`.
fn is_named(window: &[u8], name: &[u8]) -> bool {
    match window {
        [b' ' | b'\t', rest @ ..] => rest.starts_with(name) && rest.ends_with(b"="),
        _ => false,
    }
}

/// Whether an attribute stands in a line, with its `=` right behind its name.
fn has_attribute(line: &[u8], name: &[u8]) -> bool {
    line.windows(name.len() + 2)
        .any(|window| is_named(window, name))
}

/// The first attribute that has to stand in the tag of a line and isn't seen there, where the line holds a whole tag.
fn unseen_attribute(line: &[u8]) -> Option<&'static str> {
    if !holds(line, ">") {
        return None;
    }
    for name in wanted_in(line).split(' ') {
        if !name.is_empty() && !has_attribute(line, name.as_bytes()) {
            return Some(name);
        }
    }
    None
}

/// What is seen in the file that makes a fault of this kind plainer.
fn say_more(
    advice: &mut Advice,
    which: &str,
    bytes: &[u8],
    kind: FormKind,
    line: &[u8],
) -> Result<(), AllocError> {
    match kind {
        FormKind::MissingAttribute => match unseen_attribute(line) {
            Some(name) => advice.say_all(&[": no `", name, "=` is seen in this line"]),
            None => Ok(()),
        },
        FormKind::UnsupportedClass if is_constraint(line) => advice.say(
            "; this one has to stand in its group: CapacityConstraints (CA1 to CA4), GameConstraints (GA1), BreakConstraints (BR1, BR2), FairnessConstraints (FA2) or SeparationConstraints (SE1)",
        ),
        FormKind::WrongCounts if holds(line, "numberRoundRobin") => {
            advice.say(": there are to be 2 rounds")
        }
        FormKind::WrongCounts => say_teams(advice, team_tags(bytes)),
        FormKind::BadNesting if which == "instance" && is_season(bytes) => {
            advice.say(
                ": `<Solution` stands in this file, and no `<Instance`; the league comes first",
            )
        }
        FormKind::BadNesting if which == "solution" && is_league(bytes) => {
            advice.say(
                ": `<Instance` stands in this file, and no `<Solution`; the season comes second",
            )
        }
        _ => Ok(()),
    }
}

/// Says how often the tag of a team begins, and how many teams there may be.
fn say_teams(advice: &mut Advice, tags: usize) -> Result<(), AllocError> {
    if tags % 2 == 0 {
        return advice.say(
            ": with n teams, their ids are 0 to n - 1, and those of slots 0 to 2n - 3",
        );
    }
    advice.say(": `<team ` stands ")?;
    advice.count(tags as u64)?;
    advice.say(" times, and teams are to be even in number")
}

/// Whether a file looks like a season's.
fn is_season(bytes: &[u8]) -> bool {
    holds(bytes, "<Solution") && !holds(bytes, "<Instance")
}

/// Whether a file looks like a league's.
fn is_league(bytes: &[u8]) -> bool {
    holds(bytes, "<Instance") && !holds(bytes, "<Solution")
}

/// Says on which line of a file something is wrong.
fn say_line(advice: &mut Advice, which: &str, name: &str, line: u64) -> Result<(), AllocError> {
    advice.say_all(&["robin: ", kind_of_file(which), ", "])?;
    advice.show(name.as_bytes())?;
    advice.say(", line ")?;
    advice.count(line)?;
    advice.say(": ")
}

/// Says that a file of this name and these bytes has a fault of form of this kind, on this line.
pub(crate) fn on_form(
    advice: &mut Advice,
    which: &str,
    name: &str,
    bytes: &[u8],
    kind: FormKind,
    line: u32,
) -> Result<(), AllocError> {
    let text = line_at(bytes, line);
    say_line(advice, which, name, u64::from(line))?;
    advice.say(expected(kind))?;
    say_more(advice, which, bytes, kind, text)?;
    advice.say("\n  ")?;
    advice.show(text)?;
    advice.end_line()
}

/// Says that the rows of a league have so many terms, which are too many.
pub(crate) fn on_rows(advice: &mut Advice, terms: u64) -> Result<(), AllocError> {
    advice.say("robin: the league is too large: its rows have ")?;
    advice.count(terms)?;
    advice.say(" terms, and at most 40000000 are worked with\n")
}

/// What was expected where a log has a fault of form of this kind.
fn expected_in_log(kind: LogKind) -> &'static str {
    match kind {
        LogKind::BadLine => "this isn't a line of a log, or not in its version; line 1 names it",
        LogKind::BadNumber => "a number is too large",
        LogKind::NoEnd => "the log ends before its last line, `end`",
        LogKind::TooLong => "the line has more than 16777216 bytes",
    }
}

/// Says that a log of this name has a fault of form of this kind, on this line.
pub(crate) fn on_log(
    advice: &mut Advice,
    name: &str,
    kind: LogKind,
    line: u64,
) -> Result<(), AllocError> {
    say_line(advice, "log", name, line)?;
    advice.say(expected_in_log(kind))?;
    advice.end_line()
}
