// Releases by key holders: what they are, and what holds of every one. Each function's contract is a theorem, so that the check asks for its proof.
#![tactic(auto)]

ghost use Rattle.releases.specs.Runs.{AlwaysStands, RepliesOnce, SimulatedOnce, AnsweredOnce};
ghost use Rattle.releases.specs.Theorems.{SatisfiedOnly, ForksSatisfy, SimulatedFits, FirstChosen, ChosenFits, AnsweredFits, OneSimulatedTape, OneHonestTape, «Words», ReadingSets};

// A leaf is satisfied by its key alone and a gate by its children alone: no other marks keep that equation.
pub fn satisfied_by_children_alone()
    ensures { SatisfiedOnly }
{}

// Two acceptable transcripts with equal commitments and different challenges give exactly one list of keys;
// they open their leaves and satisfy the rule.
pub fn forks_satisfy()
    ensures { ForksSatisfy }
{}

// A tape and a challenge simulate exactly one transcript, and it is acceptable.
pub fn simulated_transcripts_fit()
    ensures { SimulatedFits }
{}

// The first satisfied children of real gates are one choice of real entries.
pub fn first_satisfied_are_a_choice()
    ensures { FirstChosen }
{}

// Whatever entries are chosen to be real, exactly one transcript is made, and it is acceptable.
pub fn chosen_transcripts_fit()
    ensures { ChosenFits }
{}

// Keys and a tape commit to exactly one list of commitments, and answer each challenge with exactly one transcript;
// it has these commitments and is acceptable.
pub fn answered_transcripts_fit()
    ensures { AnsweredFits }
{}

// Every acceptable transcript has exactly one simulated tape.
pub fn one_simulated_tape()
    ensures { OneSimulatedTape }
{}

// For keys that open their leaves and satisfy the rule, every acceptable transcript has exactly one honest tape.
pub fn one_honest_tape()
    ensures { OneHonestTape }
{}

// Words and transcripts undo each other.
pub fn words_are_transcripts()
    ensures { «Words» }
{}

// A table that was read and a ring that was read and paired with it are what the theorems suppose.
pub fn read_rules_are_settings()
    ensures { ReadingSets }
{}

// After every list of calls at a new bench: a fork of two filed transcripts with equal commitments and different challenges is obeyed,
// and its keys open their leaves and satisfy the rule; every transcript that was written can be filed, word for word, in any empty slot.
pub fn every_list_of_calls()
    ensures { AlwaysStands }
{}

// At a new bench, exactly one tape simulates an acceptable transcript.
pub fn calls_simulate_once()
    ensures { SimulatedOnce }
{}

// At a new bench, exactly one tape commits and answers an acceptable transcript, for keys that open their leaves and satisfy the rule.
pub fn calls_answer_once()
    ensures { AnsweredOnce }
{}

// After every list of calls at a new bench, each call has exactly one reply and leaves exactly one bench.
pub fn calls_reply_once()
    ensures { RepliesOnce }
{}
