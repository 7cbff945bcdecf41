// The grammar of layouts. It has no functions: specs/ says what bytes mean by a layout, and proofs/ has the theorems
// that hold of every layout.
#![tactic(auto)]

// The fields of control messages and data headers, by the names that source document 004 has for them. A list, and
// bytes with the length before them, are one field; so are a track's namespace and its name.
#[derive(Clone, Copy)]
pub enum FieldName {
    MessageType,
    MessageLength,
    SupportedVersions,
    SelectedVersion,
    Parameters,
    NewSessionUri,
    SubscribeId,
    MaximumSubscribeId,
    TrackAlias,
    FullTrackName,
    SubscriberPriority,
    GroupOrder,
    FilterType,
    StartGroup,
    StartObject,
    EndGroup,
    EndObject,
    Expires,
    ContentExists,
    LargestGroupId,
    LargestObjectId,
    ErrorCode,
    ReasonPhrase,
    StatusCode,
    StreamCount,
    FetchType,
    JoiningSubscribeId,
    JoiningStart,
    EndOfTrack,
    TrackNamespace,
    TrackNamespacePrefix,
    GroupId,
    SubgroupId,
    ObjectId,
    PublisherPriority,
    ExtensionHeaders,
    ObjectPayloadLength,
    ObjectStatus,
}
