//! The kinds of letters, by their tags.

ghost use Rattle.std.specs.Prelude.{◌≡◌, ◌<◌};
ghost use Rattle.dds_frames.specs.Tags.{tag_number, tag_with};

/// A kind of letter.
#[derive(Clone, Copy, Debug, PartialEq, Eq)]
pub(crate) enum Tag {
    Get,
    Prepare,
    Commit,
    Abort,
    Push,
    MapAsk,
    Got,
    Vote,
    Applied,
    Aborted,
    MapTell,
    Help,
    Query,
    Status,
    Outcome,
    Lease,
    Granted,
    LeaseRefused,
    Release,
    CopyAsk,
    CopyPart,
    Install,
    Installed,
    Notice,
}

impl Tag {
    /// The kind that has this number; `None` where none has.
    #[tactic(auto, unfolding(crate::specs::Tags::tag_with))]
    pub(crate) fn of(number: u8) -> Option<Tag>
        ensures { result ≡ tag_with number }
    {
        match number {
            1 => Some(Tag::Get),
            2 => Some(Tag::Prepare),
            3 => Some(Tag::Commit),
            4 => Some(Tag::Abort),
            5 => Some(Tag::Push),
            6 => Some(Tag::MapAsk),
            7 => Some(Tag::Got),
            8 => Some(Tag::Vote),
            9 => Some(Tag::Applied),
            10 => Some(Tag::Aborted),
            11 => Some(Tag::MapTell),
            12 => Some(Tag::Help),
            13 => Some(Tag::Query),
            14 => Some(Tag::Status),
            15 => Some(Tag::Outcome),
            16 => Some(Tag::Lease),
            17 => Some(Tag::Granted),
            18 => Some(Tag::LeaseRefused),
            19 => Some(Tag::Release),
            20 => Some(Tag::CopyAsk),
            21 => Some(Tag::CopyPart),
            22 => Some(Tag::Install),
            23 => Some(Tag::Installed),
            24 => Some(Tag::Notice),
            _ => None,
        }
    }

    pub(crate) fn number(self) -> u8
        ensures value { result ≡ tag_number self }
    {
        match self {
            Tag::Get => 1,
            Tag::Prepare => 2,
            Tag::Commit => 3,
            Tag::Abort => 4,
            Tag::Push => 5,
            Tag::MapAsk => 6,
            Tag::Got => 7,
            Tag::Vote => 8,
            Tag::Applied => 9,
            Tag::Aborted => 10,
            Tag::MapTell => 11,
            Tag::Help => 12,
            Tag::Query => 13,
            Tag::Status => 14,
            Tag::Outcome => 15,
            Tag::Lease => 16,
            Tag::Granted => 17,
            Tag::LeaseRefused => 18,
            Tag::Release => 19,
            Tag::CopyAsk => 20,
            Tag::CopyPart => 21,
            Tag::Install => 22,
            Tag::Installed => 23,
            Tag::Notice => 24,
        }
    }
}
