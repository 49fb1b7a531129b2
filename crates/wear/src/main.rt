// How often the sector store erases: six workloads of 256 page writes, each on four fresh sectors.
#![tactic(auto)]

mod workloads;

ghost use Rattle.std.specs.Prelude.{◌≡◌, length};

use std::io;
use stores::PageStore;
use stores::sectors::SectorStore;
use workloads::Workload;

// Runs a workload, and hands back how many of its writes the store took: all. A loop, since each step changes the image and the store.
fn run(workload: Workload, store: &mut SectorStore<'_>) -> usize
    requires { length store.old.memory.now ≡ 16384 }
    ensures { result ≡ 256 }
{
    let mut writes = 0;
    let mut image = [0xFF; 512];
    for step in 0..256 {
        let page = workload.step(step, &mut image);
        if store.write(page, &image).is_ok() {
            writes += 1;
        }
    }
    writes
}

fn main(rt: HostRuntime) -> io::Result<()> {
    for (name, workload) in Workload::ALL {
        let mut memory = [0xFF; 16384];
        let mut store = SectorStore::new(&mut memory);
        let writes = run(workload, &mut store);
        println!(rt; "{name}: {writes} writes, {} erases", store.erases())?;
    }
    Ok(())
}
