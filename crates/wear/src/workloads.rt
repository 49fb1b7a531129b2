// The page writes of each workload, step by step.
ghost use Rattle.std.specs.Prelude.{◌<◌};

#[derive(Clone, Copy)]
pub enum Workload {
    // records of 16 bytes, each added behind the last; the free part of a page is FF
    AppendToOnes,
    // the same, where the free part of a page is 0
    AppendToZeros,
    // the same bytes to the same page
    Repeat,
    // other bytes to each page in turn
    Rewrite,
    // a log that clears one bit at each step
    ClearBits,
    // a counter of 16 bits that counts up
    CountUp,
}

impl Workload {
    // All of them, with their names.
    pub const ALL: [(&'static str, Workload); 6] = [
        ("append records to FF", Workload::AppendToOnes),
        ("append records to 00", Workload::AppendToZeros),
        ("write the same bytes", Workload::Repeat),
        ("rewrite pages in turn", Workload::Rewrite),
        ("clear bit by bit", Workload::ClearBits),
        ("count up", Workload::CountUp),
    ];

    // Makes the image that this step writes from that of the step before, and hands back the page that it goes to.
    // One match, since a table of functions would need a name for each rule beside that of its workload.
    pub fn step(self, step: usize, image: &mut [u8; 512]) -> usize
        requires { step < 256 }
        ensures { result < 32 }
    {
        match self {
            Workload::AppendToOnes => append(step, 0xFF, image),
            Workload::AppendToZeros => append(step, 0, image),
            Workload::Repeat => {
                *image = [0x5A; 512];
                3
            }
            Workload::Rewrite => {
                *image = [step as u8; 512];
                step % 32
            }
            Workload::ClearBits => {
                image[step / 8] &= !(1 << (step % 8));
                5
            }
            Workload::CountUp => {
                image[0] = 0;
                image[1] = step as u8;
                9
            }
        }
    }
}

// Puts a record of 16 bytes behind those of the page, or begins the next page when it is full.
fn append(step: usize, free: u8, image: &mut [u8; 512]) -> usize
    requires { step < 256 }
    ensures { result < 32 }
{
    let slot = step % 32;
    if slot == 0 {
        *image = [free; 512];
    }
    image[16 * slot..16 * slot + 16].copy_from_slice(&[step as u8; 16]);
    step / 32
}
