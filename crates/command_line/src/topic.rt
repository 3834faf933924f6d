//! Commands by their names.
ghost use Rattle.std.specs.Prelude.{◌≡◌, Some};
ghost use Rattle.command_line.specs.Topics as topics;

/// A command, by its name alone.
#[derive(Clone, Copy)]
pub enum Topic {
    Validate,
    Show,
    Solve,
    Patterns,
    Explain,
    Part,
    Check,
    Prove,
    Bound,
    Resume,
    Audit,
    Rows,
    Values,
    Circle,
    Make,
    Trial,
}

/// The command of a name.
pub fn topic_of(name: &str) -> Option<Topic>
    ensures { result ≡ topics.topic_of name.now }
{
    match name {
        "validate" => Some(Topic::Validate),
        "show" => Some(Topic::Show),
        "solve" => Some(Topic::Solve),
        "patterns" => Some(Topic::Patterns),
        "explain" => Some(Topic::Explain),
        "part" => Some(Topic::Part),
        "check" => Some(Topic::Check),
        "prove" => Some(Topic::Prove),
        "bound" => Some(Topic::Bound),
        "resume" => Some(Topic::Resume),
        "audit" => Some(Topic::Audit),
        "rows" => Some(Topic::Rows),
        "values" => Some(Topic::Values),
        "circle" => Some(Topic::Circle),
        "make" => Some(Topic::Make),
        "trial" => Some(Topic::Trial),
        _ => None,
    }
}

/// The name of a command.
pub fn name_of(topic: Topic) -> &'static str
    ensures { topics.topic_of result.now ≡ Some topic }
{
    match topic {
        Topic::Validate => "validate",
        Topic::Show => "show",
        Topic::Solve => "solve",
        Topic::Patterns => "patterns",
        Topic::Explain => "explain",
        Topic::Part => "part",
        Topic::Check => "check",
        Topic::Prove => "prove",
        Topic::Bound => "bound",
        Topic::Resume => "resume",
        Topic::Audit => "audit",
        Topic::Rows => "rows",
        Topic::Values => "values",
        Topic::Circle => "circle",
        Topic::Make => "make",
        Topic::Trial => "trial",
    }
}
