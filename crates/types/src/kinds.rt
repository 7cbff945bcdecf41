// Which control messages there are, by what they are about.

// Those of subscriptions.
#[derive(Clone, Copy)]
pub enum SubscriptionKind {
    SubscribeUpdate,
    Subscribe,
    SubscribeOk,
    SubscribeError,
    Unsubscribe,
    SubscribeDone,
    MaxSubscribeId,
    SubscribesBlocked,
}

// Those of fetches, and of the status of a track.
#[derive(Clone, Copy)]
pub enum FetchKind {
    Fetch,
    FetchOk,
    FetchError,
    FetchCancel,
    TrackStatusRequest,
    TrackStatus,
}

// Those that name a namespace and nothing else.
#[derive(Clone, Copy)]
pub enum Naming {
    AnnounceOk,
    Unannounce,
    SubscribeAnnouncesOk,
    UnsubscribeAnnounces,
}

// Those with parameters after the namespace.
#[derive(Clone, Copy)]
pub enum Asking {
    Announce,
    SubscribeAnnounces,
}

// Those that say why a namespace is refused.
#[derive(Clone, Copy)]
pub enum Refusing {
    AnnounceError,
    AnnounceCancel,
    SubscribeAnnouncesError,
}

// Those of namespaces, by what follows the namespace.
#[derive(Clone, Copy)]
pub enum AnnounceKind {
    Named(Naming),
    Asked(Asking),
    Refused(Refusing),
}

// Those of the session itself.
#[derive(Clone, Copy)]
pub enum SessionKind {
    ClientSetup,
    ServerSetup,
    GoAway,
}

// A message of any family.
#[derive(Clone, Copy)]
pub enum Kind {
    Subscription(SubscriptionKind),
    Fetch(FetchKind),
    Announce(AnnounceKind),
    Session(SessionKind),
}
