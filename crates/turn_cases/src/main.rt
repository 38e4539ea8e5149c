// Runs the calls of the client on both sides of each line that document 01 draws for them, and prints what they answer. The file
// `stdout` is made from document 01 and turn.rs, and not from this program.
#![tactic(auto)]

mod build;
mod calls;
mod due;
mod lines;
mod opening;

use std::io;

fn main(rt: HostRuntime) -> io::Result<()> {
    opening::texts(&rt)?;
    opening::ill_formed(&rt)?;
    opening::two_before_three(&rt)?;
    opening::refused(&rt)?;
    opening::named(&rt)?;
    calls::rooms(&rt)?;
    calls::signed(&rt)?;
    calls::start_times(&rt)?;
    calls::poll_times(&rt)?;
    calls::lent(&rt)?;
    calls::clashes(&rt)?;
    calls::used_again(&rt)?;
    calls::lower_number(&rt)?;
    calls::full(&rt)?;
    calls::full_polled(&rt)?;
    calls::unanswered(&rt)?;
    calls::failed(&rt)?;
    calls::reliable(&rt)?;
    calls::order(&rt)?;
    calls::late(&rt)?;
    calls::afresh(&rt)?;
    calls::listing(&rt)?;
    calls::lost(&rt)?;
    calls::lost_relayed(&rt)?;
    due::renewed(&rt)?;
    due::renewal_ids(&rt)?;
    due::renewal_rooms(&rt)?;
    due::renewal_times(&rt)?;
    due::renewals_by_transport(&rt)?;
    due::after_repeats(&rt)?;
    due::closing(&rt)?;
    due::not_due(&rt)?;
    due::failures_first(&rt)?;
    due::last_place(&rt)?;
    due::equal_at_the_end(&rt)?;
    due::full_refresh(&rt)?;
    due::sixty_five(&rt)?;
    due::sixty_four(&rt)?;
    due::closed(&rt)?;
    due::closed_once(&rt)
}
