// The elements that are read, and where they stand (RobinX; which of them the competition of 2021 uses).
ghost use Rattle.std.specs.Prelude.{◌≡◌, bytes_eq};
ghost use Rattle.std.specs.List.{find};
ghost use Rattle.robinx.specs.Elements as elements;
ghost use Rattle.robinx.specs.Walk as walk;

use crate::tag_fault::FormKind;
use league::ClassName;

/// The six groups that classes stand in. Which class stands in which isn't looked at.
#[derive(Clone, Copy)]
pub enum GroupName {
    Basic,
    Capacity,
    Game,
    Break,
    Fairness,
    Separation,
}

/// An element that is read. The two kinds of files stand around their roots.
#[derive(Clone, Copy)]
pub enum Element {
    InstanceFile,
    SolutionFile,
    Instance,
    Structure,
    Format,
    NumberRoundRobin,
    Compactness,
    GameMode,
    Resources,
    Teams,
    Team,
    Slots,
    Slot,
    Constraints,
    Group(GroupName),
    Class(ClassName),
    Solution,
    Games,
    ScheduledMatch,
}

/// How often an element may stand in another.
#[derive(Clone, Copy)]
pub enum Times {
    Once,
    AtMostOnce,
    Any,
}

/// An element that may stand in another, and how often.
#[derive(Clone, Copy)]
pub struct Row {
    pub element: Element,
    pub times: Times,
}

const IN_INSTANCE_FILE: [Row; 1] = [Row {
    element: Element::Instance,
    times: Times::Once,
}];

const IN_SOLUTION_FILE: [Row; 1] = [Row {
    element: Element::Solution,
    times: Times::Once,
}];

const IN_INSTANCE: [Row; 3] = [
    Row {
        element: Element::Structure,
        times: Times::Once,
    },
    Row {
        element: Element::Resources,
        times: Times::Once,
    },
    Row {
        element: Element::Constraints,
        times: Times::Once,
    },
];

const IN_STRUCTURE: [Row; 1] = [Row {
    element: Element::Format,
    times: Times::Once,
}];

const IN_FORMAT: [Row; 3] = [
    Row {
        element: Element::NumberRoundRobin,
        times: Times::Once,
    },
    Row {
        element: Element::Compactness,
        times: Times::Once,
    },
    Row {
        element: Element::GameMode,
        times: Times::AtMostOnce,
    },
];

const IN_RESOURCES: [Row; 2] = [
    Row {
        element: Element::Teams,
        times: Times::Once,
    },
    Row {
        element: Element::Slots,
        times: Times::Once,
    },
];

const IN_TEAMS: [Row; 1] = [Row {
    element: Element::Team,
    times: Times::Any,
}];

const IN_SLOTS: [Row; 1] = [Row {
    element: Element::Slot,
    times: Times::Any,
}];

const IN_CONSTRAINTS: [Row; 6] = [
    Row {
        element: Element::Group(GroupName::Basic),
        times: Times::Any,
    },
    Row {
        element: Element::Group(GroupName::Capacity),
        times: Times::Any,
    },
    Row {
        element: Element::Group(GroupName::Game),
        times: Times::Any,
    },
    Row {
        element: Element::Group(GroupName::Break),
        times: Times::Any,
    },
    Row {
        element: Element::Group(GroupName::Fairness),
        times: Times::Any,
    },
    Row {
        element: Element::Group(GroupName::Separation),
        times: Times::Any,
    },
];

const IN_GROUP: [Row; 9] = [
    Row {
        element: Element::Class(ClassName::Ca1),
        times: Times::Any,
    },
    Row {
        element: Element::Class(ClassName::Ca2),
        times: Times::Any,
    },
    Row {
        element: Element::Class(ClassName::Ca3),
        times: Times::Any,
    },
    Row {
        element: Element::Class(ClassName::Ca4),
        times: Times::Any,
    },
    Row {
        element: Element::Class(ClassName::Ga1),
        times: Times::Any,
    },
    Row {
        element: Element::Class(ClassName::Br1),
        times: Times::Any,
    },
    Row {
        element: Element::Class(ClassName::Br2),
        times: Times::Any,
    },
    Row {
        element: Element::Class(ClassName::Fa2),
        times: Times::Any,
    },
    Row {
        element: Element::Class(ClassName::Se1),
        times: Times::Any,
    },
];

const IN_SOLUTION: [Row; 1] = [Row {
    element: Element::Games,
    times: Times::Once,
}];

const IN_GAMES: [Row; 1] = [Row {
    element: Element::ScheduledMatch,
    times: Times::Any,
}];

impl GroupName {
    /// The name of its element, as RobinX spells it.
    pub fn name(self) -> &'static [u8]
        ensures { result.now ≡ elements.group_name self }
    {
        match self {
            GroupName::Basic => b"BasicConstraints",
            GroupName::Capacity => b"CapacityConstraints",
            GroupName::Game => b"GameConstraints",
            GroupName::Break => b"BreakConstraints",
            GroupName::Fairness => b"FairnessConstraints",
            GroupName::Separation => b"SeparationConstraints",
        }
    }
}

impl Element {
    /// The name in its tags, as RobinX spells it. A file has none: its name is empty, and no tag's is.
    pub fn name(self) -> &'static [u8]
        ensures { result.now ≡ elements.element_name self }
    {
        match self {
            Element::InstanceFile | Element::SolutionFile => b"",
            Element::Instance => b"Instance",
            Element::Structure => b"Structure",
            Element::Format => b"Format",
            Element::NumberRoundRobin => b"numberRoundRobin",
            Element::Compactness => b"compactness",
            Element::GameMode => b"gameMode",
            Element::Resources => b"Resources",
            Element::Teams => b"Teams",
            Element::Team => b"team",
            Element::Slots => b"Slots",
            Element::Slot => b"slot",
            Element::Constraints => b"Constraints",
            Element::Group(group) => group.name(),
            Element::Class(class) => class.text().as_bytes(),
            Element::Solution => b"Solution",
            Element::Games => b"Games",
            Element::ScheduledMatch => b"ScheduledMatch",
        }
    }

    /// The elements that are read inside of it, in no order, each at most once.
    pub fn inside(self) -> &'static [Row]
        ensures { result.now ≡ elements.inside self }
    {
        match self {
            Element::InstanceFile => &IN_INSTANCE_FILE,
            Element::SolutionFile => &IN_SOLUTION_FILE,
            Element::Instance => &IN_INSTANCE,
            Element::Structure => &IN_STRUCTURE,
            Element::Format => &IN_FORMAT,
            Element::Resources => &IN_RESOURCES,
            Element::Teams => &IN_TEAMS,
            Element::Slots => &IN_SLOTS,
            Element::Constraints => &IN_CONSTRAINTS,
            Element::Group(_) => &IN_GROUP,
            Element::Solution => &IN_SOLUTION,
            Element::Games => &IN_GAMES,
            Element::NumberRoundRobin
            | Element::Compactness
            | Element::GameMode
            | Element::Team
            | Element::Slot
            | Element::Class(_)
            | Element::ScheduledMatch => &[],
        }
    }

    /// What a tag in it is that isn't among the elements that are read there, or None where it is passed over: among
    /// the constraints an unsupported class, in a file or in an element without parts a bad nesting.
    pub fn unlisted(self) -> Option<FormKind>
        ensures { result ≡ elements.unlisted self }
    {
        match self {
            Element::InstanceFile
            | Element::SolutionFile
            | Element::NumberRoundRobin
            | Element::Compactness
            | Element::GameMode
            | Element::Team
            | Element::Slot
            | Element::Class(_)
            | Element::ScheduledMatch => Some(FormKind::BadNesting),
            Element::Constraints | Element::Group(_) => Some(FormKind::UnsupportedClass),
            Element::Instance
            | Element::Structure
            | Element::Format
            | Element::Resources
            | Element::Teams
            | Element::Slots
            | Element::Solution
            | Element::Games => None,
        }
    }

    /// What an element in it is that may stand once and comes again. A file has one root, and no tag beside it.
    pub fn repeated(self) -> FormKind
        ensures { result ≡ elements.repeated self }
    {
        match self {
            Element::InstanceFile | Element::SolutionFile => FormKind::BadNesting,
            _ => FormKind::RepeatedElement,
        }
    }

    /// Whether the element's text is a value. Other texts are passed over.
    pub fn has_value(self) -> bool
        ensures { result ≡ elements.has_value self }
    {
        matches!(
            self,
            Element::NumberRoundRobin | Element::Compactness | Element::GameMode
        )
    }

    /// The row of the element for this name, or None where no element of the name is read in it.
    pub fn row_of(self, name: &[u8]) -> Option<Row>
        ensures { result ≡ walk.row_of self name.now }
    {
        find_row(self.inside(), name)
    }
}

impl Row {
    fn has_name(&self, name: &[u8]) -> bool
        ensures { result ≡ bytes_eq (elements.element_name self.now.element) name.now }
    {
        self.element.name() == name
    }
}

fn find_row(rows: &[Row], name: &[u8]) -> Option<Row>
    ensures { result ≡ find (λ row. bytes_eq (elements.element_name row.element) name.now) rows.now }
{
    for row in rows {
        if row.has_name(name) {
            return Some(*row);
        }
    }
    None
}
