// What holds for every list of events.
ghost use Rattle.std.specs.Prelude.{ℕ};
ghost use Rattle.race_core.specs.Laws.{StartIsSound, SoundnessIsKept, SoundStatesAccount, ReachedStatesAreSound, NoStratumIsJoinedTwice, JoinedStrataWereWon, EachTicketIsDrawnByOneSeat, DrawsAreAccounted, AllowedListsAreNotRefused, TicketNames};

/// The first state is sound.
pub fn start_is_sound()
    ensures { StartIsSound }
{}

/// An allowed event keeps a state sound.
pub fn soundness_is_kept()
    ensures { SoundnessIsKept }
{}

/// In a sound state the drawn tickets and the bound of the count follow from the count.
pub fn sound_states_account()
    ensures { SoundStatesAccount }
{}

/// Every list of allowed events reaches a sound state.
pub fn reached_states_are_sound()
    ensures { ReachedStatesAreSound }
{}

/// No list of allowed events joins a stratum twice.
pub fn no_stratum_is_joined_twice()
    ensures { NoStratumIsJoinedTwice }
{}

/// A seat that joins a stratum is the one that won it.
pub fn joined_strata_were_won()
    ensures { JoinedStrataWereWon }
{}

/// Each ticket is drawn by one seat.
pub fn each_ticket_is_drawn_by_one_seat()
    ensures { EachTicketIsDrawnByOneSeat }
{}

/// The drawn tickets and the seats told spent account for the count of draws.
pub fn draws_are_accounted()
    ensures { DrawsAreAccounted }
{}

/// A list of events is not both allowed and refused.
pub fn allowed_lists_are_not_refused()
    ensures { AllowedListsAreNotRefused }
{}

/// Each stratum has one ticket of each kind.
pub fn tickets_name_strata()
    ensures { (strata : ℕ) → TicketNames strata }
{}
