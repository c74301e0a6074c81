// The first draws of a lottery.
use faults::Fault;
use policies::Policy;
use policies::lottery::Lottery;

// Prints six draws from all fourteen modules.
pub(crate) fn show(rt: &HostRuntime, seed: u32) -> Result<(), Fault> {
    let mut lottery = Lottery::new(seed);
    print!(rt; "The lottery of seed {seed} draws")?;
    for _ in 0..6 {
        let module = lottery.choose(&[true; 14]);
        print!(rt; " {module}")?;
    }
    println!(rt; "")?;
    Ok(())
}
