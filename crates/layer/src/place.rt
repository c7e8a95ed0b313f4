// Where a layer has an entry: in one of its buckets, or in the store below. An `Option<u8>` would not say which of the two none means.
#[derive(Clone, Copy, PartialEq, Eq, Debug)]
pub enum Place {
    Bucket(u8),
    Below,
}
