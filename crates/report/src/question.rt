//! Answers a job's question.
ghost use Rattle.std.specs.Prelude.{◌≡◌, length, MatchResult};
ghost use Rattle.sets.specs.Sets.{Set, member};
ghost use Rattle.list.specs.Lists.{Refilled};
ghost use Rattle.report.specs.Listings.{at_line};
ghost use Rattle.report.specs.Asking.{least_places, Answers, Refuses, Leaves};

use crate::fault::JobFault;
use crate::listing::{put_at, put_refused};
use legend::Legend;
use list::List;
use logic::evaluate;
use logic::line::Line;
use model::game::Game;
use model::table::Table;
use reader::read;
use refusal::Numbered;
use sets::state_set::StateSet;
use text::parse;

/// The states where the question of a job holds in its model.
fn answer(job: &[u8]) -> Result<StateSet, JobFault>
    ensures { MatchResult result (λ x. Answers job.now (member x)) (λ f. Refuses job.now least_places f) }
{
    if job.len() > 16384 {
        return Err(JobFault::Length);
    }
    let mut table = Table::blank();
    let mut legend = Legend::empty();
    let text = read(job, &mut table, &mut legend)?;
    let mut places = [Line::True; 4096];
    let mut lines = List::empty(&mut places);
    parse(text, &legend, table.agents(), &mut lines)?;
    let mut sets = [StateSet::empty(); 4096];
    Ok(evaluate(&table, lines.items(), &mut sets).unwrap())
}

/// Reads a job, a model file and then question text, and makes the list hold just the listing: where the question holds, or the refusal.
pub fn ask(job: &[u8], listing: &mut List<u8>) -> Result<(), JobFault>
    ensures { MatchResult result (λ _. (X : Set) × Answers job.now X × Refilled listing.old listing.new (at_line X)) (λ f. Refuses job.now (length listing.old.places.now) f × Leaves f listing.old listing.new) }
{
    if listing.size() < 512 {
        return Err(JobFault::Places);
    }
    listing.clear();
    // kept: with `map_err` and `?` the proof didn't close, since nothing is known of a listing that a closure may have written
    match answer(job) {
        Ok(states) => {
            put_at(listing, states);
            Ok(())
        }
        Err(fault) => {
            put_refused(listing, fault.number());
            Err(fault)
        }
    }
}
