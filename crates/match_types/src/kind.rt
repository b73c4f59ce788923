// How the words of a pattern are to meet those of a query.

/// How the words of a pattern are to meet those of a query.
#[derive(Clone, Copy, Debug, PartialEq, Eq, Hash)]
pub enum MatchType {
    /// The query's words are the pattern's, in order: `[tennis shoes]`.
    Exact,
    /// The pattern's words stand in the query's, in order and without a break: `"tennis shoes"`.
    Phrase,
    /// Each word of the pattern is a word of the query: `tennis shoes`.
    Broad,
}
