//! Jobs and their listings.
use crate::files::shortest;
use list::List;
use refusal::Numbered;
use report::ask;
use report::fault::JobFault;
use std::process::Abort;
use std::test::Fail;

/// The shortest file, one state and one agent, and then this text: so many bytes.
fn job(text: &[u8]) -> [u8; 40] {
    let mut job = [b' '; 40];
    job[..18].copy_from_slice(&shortest()[..18]);
    let len = text.len().min(22);
    job[18..18 + len].copy_from_slice(&text[..len]);
    job
}

/// The job has this listing, and is accepted or refused with this number.
fn listed(rt: &impl Abort, job: &[u8], outcome: Result<(), u8>, expected: &[u8]) {
    let mut places = [7; 512];
    let mut listing = List::empty(&mut places);
    assert!(rt; listing.add(9).is_ok());
    assert_eq!(rt; ask(job, &mut listing).map_err(JobFault::number), outcome);
    assert!(rt; listing.items() == expected);
}

#[test]
fn listings(rt: HostRuntime) {
    listed(&rt, &job(b"true"), Ok(()), b"at: 0\n");
    listed(&rt, &job(b"! true"), Ok(()), b"at:\n");
    listed(&rt, &job(b"<0>G true"), Ok(()), b"at: 0\n");
    listed(&rt, &job(b"p"), Err(46), b"refused 46\n");
    listed(&rt, &job(b"<1>X true"), Err(46), b"refused 46\n");
    listed(&rt, &job(b""), Err(46), b"refused 46\n");
    listed(&rt, b"", Err(44), b"refused 44\n");
    let whole = job(b"true");
    listed(&rt, &whole[..17], Err(44), b"refused 44\n");
    let long = [1; 16385];
    listed(&rt, &long, Err(42), b"refused 42\n");
    listed(&rt, &long[..16384], Err(44), b"refused 44\n");
}

#[test]
fn few_places(rt: HostRuntime) -> Result<(), Fail> {
    let mut places = [7; 511];
    let mut listing = List::empty(&mut places);
    assert!(rt; listing.add(9).is_ok());
    let Err(fault) = ask(&job(b"true"), &mut listing) else {
        return Err(Fail::new("511 places suffice"));
    };
    assert_eq!(rt; fault.number(), 41);
    assert!(rt; listing.count() == 1);
    assert_eq!(rt; listing.at(0), Some(9));
    Ok(())
}
