// How many prefixes would be in each of 256 buckets: an array, since a bucket is its place.
ghost use Rattle.std.specs.Prelude.{◌≡◌, ◌+◌, ◌-◌, ◌^◌, min, length, replicate, slice_index, slice_set};
ghost use Rattle.chooser.specs.Load.{most};

#[derive(Drop)]
pub struct Load {
    counts: [u64; 256],
    ghost long: { length counts ≡ 256 },
}

impl Load {
    pub fn empty() -> Load
        ensures { result.counts ≡ replicate 256 0 }
    {
        Load { counts: [0; 256] }
    }

    // One prefix more in the bucket; the count stays at the largest number that it can hold.
    pub fn note(&mut self, bucket: u8)
        ensures { self.new.counts ≡ slice_set self.old.counts bucket (min (slice_index self.old.counts bucket + 1) (2 ^ 64 - 1)) }
    {
        let count = &mut self.counts[usize::from(bucket)];
        *count = count.saturating_add(1);
    }

    // How many are in the fullest bucket.
    pub fn fullest(&self) -> u64
        ensures { result ≡ most self.now.counts }
    {
        self.counts.iter().fold(0, |top, n| top.max(*n))
    }
}
