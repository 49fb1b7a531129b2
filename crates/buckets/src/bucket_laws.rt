// A bucket page says one thing.
ghost use Rattle.buckets.specs.BucketLaws.{OneBucket, RecordsPlaced, BucketsFull};

// Computes nothing: its promise is that the bytes of a bucket page tell its level and its records.
pub fn bucket_laws_stand() -> u8
    ensures one { OneBucket }
    ensures placed { RecordsPlaced }
    ensures full { BucketsFull }
{
    0
}
