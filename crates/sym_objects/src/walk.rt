//! Work lists: the value of a key is made of the values of two others, down to keys whose value is there at once.

/// What is left to do with the value of a part.
#[derive(Clone, Copy, Drop)]
pub struct Frame<K, V> {
    /// The key whose value is made of those of the two parts.
    pub whole: K,
    pub first: K,
    pub second: K,
    /// The value of the first part, once it is there.
    pub found: Option<V>,
}

/// What is to be done next.
#[derive(Clone, Copy, Drop)]
pub enum Focus<K, V> {
    /// Find the value of this key.
    Visit(K),
    /// Hand on the value of this key.
    Give(K, V),
}
