// The kinds of a slave call's stages by number.
ghost use Rattle.std.specs.Prelude.{◌≡◌};
ghost use Rattle.stage_numbers.specs.SlaveStage.{stage_group, stage_what, stage_phase, stopf_for_number, stopf_for_of, stopf_stage_number, stopf_stage_of, stale_stage_number, stale_stage_of, arm_stage_number, arm_stage_of, match_stage_number, match_stage_of, half_number, half_of, error_stage_number, error_stage_of, abort_stage_number, abort_stage_of};

use crate::numbered::Numbered;
use slave::Stage;
use slave::stage::{
    AbortStage, ArmStage, ErrorStage, Half, MatchStage, StaleStage, StopfFor, StopfStage,
};

impl Numbered for StopfFor {
    ghost number_of = { stopf_for_number };

    ghost kind_of = { stopf_for_of };

    #[inline(always)]
    fn number(self) -> u8 {
        self as u8
    }

    #[inline(always)]
    #[tactic(auto, using(crate::proofs::SlaveStageRanges::stopf_for_range))]
    fn of(number: u8) -> Option<Self> {
        match number {
            0 => Some(StopfFor::Listen),
            1 => Some(StopfFor::End),
            _ => None,
        }
    }
}

impl Numbered for StopfStage {
    ghost number_of = { stopf_stage_number };

    ghost kind_of = { stopf_stage_of };

    #[inline(always)]
    fn number(self) -> u8 {
        self as u8
    }

    #[inline(always)]
    #[tactic(auto, using(crate::proofs::SlaveStageRanges::stopf_stage_range))]
    fn of(number: u8) -> Option<Self> {
        match number {
            0 => Some(StopfStage::Status),
            1 => Some(StopfStage::Read),
            2 => Some(StopfStage::Write),
            _ => None,
        }
    }
}

impl Numbered for StaleStage {
    ghost number_of = { stale_stage_number };

    ghost kind_of = { stale_stage_of };

    #[inline(always)]
    fn number(self) -> u8 {
        self as u8
    }

    #[inline(always)]
    #[tactic(auto, using(crate::proofs::SlaveStageRanges::stale_stage_range))]
    fn of(number: u8) -> Option<Self> {
        match number {
            0 => Some(StaleStage::Status),
            1 => Some(StaleStage::Clear),
            _ => None,
        }
    }
}

impl Numbered for ArmStage {
    ghost number_of = { arm_stage_number };

    ghost kind_of = { arm_stage_of };

    #[inline(always)]
    fn number(self) -> u8 {
        self as u8
    }

    #[inline(always)]
    #[tactic(auto, using(crate::proofs::SlaveStageRanges::arm_stage_range))]
    fn of(number: u8) -> Option<Self> {
        match number {
            0 => Some(ArmStage::BufferRead),
            1 => Some(ArmStage::BufferWrite),
            2 => Some(ArmStage::AckRead),
            3 => Some(ArmStage::AckWrite),
            _ => None,
        }
    }
}

impl Numbered for MatchStage {
    ghost number_of = { match_stage_number };

    ghost kind_of = { match_stage_of };

    #[inline(always)]
    fn number(self) -> u8 {
        self as u8
    }

    #[inline(always)]
    #[tactic(auto, using(crate::proofs::SlaveStageRanges::match_stage_range))]
    fn of(number: u8) -> Option<Self> {
        match number {
            0 => Some(MatchStage::Status),
            1 => Some(MatchStage::Second),
            2 => Some(MatchStage::Own),
            _ => None,
        }
    }
}

impl Numbered for Half {
    ghost number_of = { half_number };

    ghost kind_of = { half_of };

    #[inline(always)]
    fn number(self) -> u8 {
        self as u8
    }

    #[inline(always)]
    #[tactic(auto, using(crate::proofs::SlaveStageRanges::half_range))]
    fn of(number: u8) -> Option<Self> {
        match number {
            0 => Some(Half::Read),
            1 => Some(Half::Write),
            _ => None,
        }
    }
}

impl Numbered for ErrorStage {
    ghost number_of = { error_stage_number };

    ghost kind_of = { error_stage_of };

    #[inline(always)]
    fn number(self) -> u8 {
        self as u8
    }

    #[inline(always)]
    #[tactic(auto, using(crate::proofs::SlaveStageRanges::error_stage_range))]
    fn of(number: u8) -> Option<Self> {
        match number {
            0 => Some(ErrorStage::Clear),
            1 => Some(ErrorStage::Clock),
            _ => None,
        }
    }
}

impl Numbered for AbortStage {
    ghost number_of = { abort_stage_number };

    ghost kind_of = { abort_stage_of };

    #[inline(always)]
    fn number(self) -> u8 {
        self as u8
    }

    #[inline(always)]
    #[tactic(auto, using(crate::proofs::SlaveStageRanges::abort_stage_range))]
    fn of(number: u8) -> Option<Self> {
        match number {
            0 => Some(AbortStage::DisableRead),
            1 => Some(AbortStage::DisableWrite),
            2 => Some(AbortStage::Busy),
            3 => Some(AbortStage::StopRead),
            4 => Some(AbortStage::StopWrite),
            _ => None,
        }
    }
}

// The group, which of the group's, and the phase.
#[inline(always)]
pub fn numbers_of(stage: Stage) -> (u8, u8, u8)
    ensures { result ≡ (stage_group stage, stage_what stage, stage_phase stage) }
{
    match stage {
        Stage::ClearStopf(what, phase) => (0, what.number(), phase.number()),
        Stage::Stale(phase) => (1, 0, phase.number()),
        Stage::Arm(phase) => (2, 0, phase.number()),
        Stage::Poll => (3, 0, 0),
        Stage::Match(phase) => (4, 0, phase.number()),
        Stage::Receive => (5, 0, 0),
        Stage::Send => (6, 0, 0),
        Stage::ClearAf(half) => (7, 0, half.number()),
        Stage::Errors(phase) => (8, 0, phase.number()),
        Stage::Abort(phase) => (9, 0, phase.number()),
        Stage::Ended => (10, 0, 0),
    }
}
