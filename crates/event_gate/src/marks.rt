// What else a seat of a gauge knows. No value of it is made.

/// How many finds there were when it last announced a post, for how many posts it has room, and how many were refused.
pub struct Marks {
    /// How often the taker had found nothing when the seat last announced a post.
    pub stamp: u64,
    /// How many posts more it may announce.
    pub room: u64,
    /// How many of its posts it has taken back.
    pub refused: u64,
}
