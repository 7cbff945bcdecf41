// What a part is called, by 004's name of its field.
ghost use Rattle.std.specs.Prelude.{◌≡◌};
ghost use Rattle.columns.specs.Pouring.{filling, pour};
ghost use Rattle.labels.specs.Labels.{called, label_of};
ghost use Rattle.labels.specs.Said.{name_in_bytes, words_of, said, label_said, label_words};

use columns::put_str;
use layout::FieldName;
use parts::What;

// The words for a field: its name, and that of an entry of it; what is said behind the name for a length, for the
// number that an entry begins with, and for its bytes.
#[derive(Clone, Copy)]
struct Words {
    name: &'static str,
    entry: &'static str,
    length: &'static str,
    number: &'static str,
    value: &'static str,
}

// A label: what is said before the name, the name, and what is said behind it.
#[derive(Clone, Copy)]
struct Label {
    before: &'static str,
    name: &'static str,
    behind: &'static str,
}

// The name of a field; of a list, of one of its entries; of a track, of its name.
fn name(field: FieldName) -> &'static str
    ensures { result.now ≡ name_in_bytes field }
{
    match field {
        FieldName::MessageType => "Type",
        FieldName::MessageLength => "Length",
        FieldName::SupportedVersions => "Supported Version",
        FieldName::SelectedVersion => "Selected Version",
        FieldName::Parameters => "Parameter",
        FieldName::NewSessionUri => "New Session URI",
        FieldName::SubscribeId => "Subscribe ID",
        FieldName::MaximumSubscribeId => "Maximum Subscribe ID",
        FieldName::TrackAlias => "Track Alias",
        FieldName::FullTrackName => "Track Name",
        FieldName::SubscriberPriority => "Subscriber Priority",
        FieldName::GroupOrder => "Group Order",
        FieldName::FilterType => "Filter Type",
        FieldName::StartGroup => "StartGroup",
        FieldName::StartObject => "StartObject",
        FieldName::EndGroup => "EndGroup",
        FieldName::EndObject => "EndObject",
        FieldName::Expires => "Expires",
        FieldName::ContentExists => "ContentExists",
        FieldName::LargestGroupId => "Largest Group ID",
        FieldName::LargestObjectId => "Largest Object ID",
        FieldName::ErrorCode => "Error Code",
        FieldName::ReasonPhrase => "Reason Phrase",
        FieldName::StatusCode => "Status Code",
        FieldName::StreamCount => "Stream Count",
        FieldName::FetchType => "Fetch Type",
        FieldName::JoiningSubscribeId => "Joining Subscribe ID",
        FieldName::JoiningStart => "Joining Start",
        FieldName::EndOfTrack => "End Of Track",
        FieldName::TrackNamespace => "Track Namespace Field",
        FieldName::TrackNamespacePrefix => "Track Namespace Prefix Field",
        FieldName::GroupId => "Group ID",
        FieldName::SubgroupId => "Subgroup ID",
        FieldName::ObjectId => "Object ID",
        FieldName::PublisherPriority => "Publisher Priority",
        FieldName::ExtensionHeaders => "Extension Headers",
        FieldName::ObjectPayloadLength => "Object Payload Length",
        FieldName::ObjectStatus => "Object Status",
    }
}

// A message's Length is a length itself; parameters are pairs of a type and a value; a track begins with its namespace.
fn called(field: FieldName) -> Words
    ensures { said result ≡ words_of (called field) }
{
    let name = name(field);
    let plain = Words {
        name,
        entry: name,
        length: " Length",
        number: "",
        value: "",
    };
    match field {
        FieldName::MessageLength => Words {
            length: "",
            ..plain
        },
        FieldName::Parameters => Words {
            number: " Type",
            value: " Value",
            ..plain
        },
        FieldName::FullTrackName => Words {
            entry: "Track Namespace Field",
            ..plain
        },
        _ => plain,
    }
}

#[tactic(auto, unfolding(types::specs::Letters::letters))]
fn arranged(words: Words, what: What) -> Label
    ensures { label_said result ≡ label_words (said words) what }
{
    let Words {
        name,
        entry,
        length,
        number,
        value,
    } = words;
    let (before, name, behind) = match what {
        What::Number | What::Byte | What::Content => ("", name, ""),
        What::Length => ("", name, length),
        What::Count => ("Number of ", entry, "s"),
        What::EntryNumber => ("", entry, number),
        What::EntryLength => ("", entry, " Length"),
        What::EntryContent => ("", entry, value),
        What::Left => ("", "left over", ""),
    };
    Label {
        before,
        name,
        behind,
    }
}

// What a part is called, by its field and by what it is.
pub fn put_label(out: &mut [u8], at: usize, field: FieldName, what: What) -> usize
    ensures { filling out.new result ≡ pour (filling out.old at) (label_of field what) }
{
    let label = arranged(called(field), what);
    let first = put_str(out, at, label.before);
    let next = put_str(out, first, label.name);
    put_str(out, next, label.behind)
}
