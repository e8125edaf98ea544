// A file put in its place among the desk's files, by a load, a proposal or a commit.
#![tactic(auto)]

ghost use Rattle.std.specs.Prelude.{true, ◌≤◌, length};
ghost use Rattle.model.specs.Limits.{plan_size, roster_size};
ghost use Rattle.desk_files.specs.Replies.{RosterIn, PlanIn, ProposalIn, CommitIn};

use desk_files::Files;

// The roster in the place of the one held, and neither plan nor proposal.
pub fn with_roster(files: Files, file: &[u8]) -> Files
    requires { length file.now ≤ roster_size }
    ensures { RosterIn file.now true files result }
{
    let mut next = files;
    let mut roster = files.roster;
    next.roster_len = byte_slices::copy(file, &mut roster);
    next.roster = roster;
    next.plan_len = 0;
    next.proposal_len = 0;
    next
}

// The plan in the place of the one held, and no proposal.
pub fn with_plan(files: Files, file: &[u8]) -> Files
    requires { length file.now ≤ plan_size }
    ensures { PlanIn file.now true files result }
{
    let mut next = files;
    let mut plan = files.plan;
    next.plan_len = byte_slices::copy(file, &mut plan);
    next.plan = plan;
    next.proposal_len = 0;
    next
}

// The proposal in the place of the one before (request W-207).
pub fn with_proposal(files: Files, file: &[u8]) -> Files
    requires { length file.now ≤ plan_size }
    ensures { ProposalIn file.now true files result }
{
    let mut next = files;
    let mut proposal = files.proposal;
    next.proposal_len = byte_slices::copy(file, &mut proposal);
    next.proposal = proposal;
    next
}

// The proposal in the plan's place, and none open.
pub fn with_commit(files: Files) -> Files
    ensures { CommitIn true files result }
{
    let mut next = files;
    let plan = files.proposal;
    next.plan_len = files.proposal_len;
    next.plan = plan;
    next.proposal_len = 0;
    next
}
