use rpc_peer::Crew;

/// How many requests are sent, how many of them may be unanswered as the next is, and who serves them.
#[derive(Clone, Copy)]
pub struct Rounds {
    pub count: u32,
    pub ahead: u32,
    pub server: Server,
    pub crew: Crew,
}

/// What of `rpc_peer` is called. The last two have the usual patience, and take the crew's workers alone.
#[derive(Clone, Copy)]
pub enum Server {
    ServeBy,
    Serve,
    ServeLines,
}
