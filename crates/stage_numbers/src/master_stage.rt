// The kinds of a master call's stages by number.
ghost use Rattle.std.specs.Prelude.{◌≡◌};
ghost use Rattle.stage_numbers.specs.MasterGroup.{group_number, group_of};
ghost use Rattle.stage_numbers.specs.MasterStage.{stage_group, stage_what, stage_phase, fall_number, fall_of, fall_stage_number, fall_stage_of, launch_stage_number, launch_stage_of, flag_number, flag_of, wait_stage_number, wait_stage_of, address_stage_number, address_stage_of, recv_stage_number, recv_stage_of, read_stage_number, read_stage_of, stop_for_number, stop_for_of, half_number, half_of, abort_stage_number, abort_stage_of};

use crate::numbered::Numbered;
use master::Stage;
use master::stage::{
    AbortStage, AddressStage, Fall, FallStage, Flag, Half, LaunchStage, ReadStage, RecvStage,
    StopFor, WaitStage,
};

// A stage without what it is for and its phase.
#[derive(Clone, Copy)]
pub enum Group {
    Begin,
    WaitStop,
    LaunchStart,
    Wait,
    Address,
    SendByte,
    RecvByte,
    ReadIter,
    GenerateStop,
    Abort,
    Ended,
}

impl Numbered for Group {
    ghost number_of = { group_number };

    ghost kind_of = { group_of };

    #[inline(always)]
    fn number(self) -> u8 {
        self as u8
    }

    #[inline(always)]
    fn of(number: u8) -> Option<Self> {
        match number {
            0 => Some(Group::Begin),
            1 => Some(Group::WaitStop),
            2 => Some(Group::LaunchStart),
            3 => Some(Group::Wait),
            4 => Some(Group::Address),
            5 => Some(Group::SendByte),
            6 => Some(Group::RecvByte),
            7 => Some(Group::ReadIter),
            8 => Some(Group::GenerateStop),
            9 => Some(Group::Abort),
            10 => Some(Group::Ended),
            _ => None,
        }
    }
}

impl Numbered for Fall {
    ghost number_of = { fall_number };

    ghost kind_of = { fall_of };

    #[inline(always)]
    fn number(self) -> u8 {
        self as u8
    }

    #[inline(always)]
    fn of(number: u8) -> Option<Self> {
        match number {
            0 => Some(Fall::Start),
            1 => Some(Fall::End),
            _ => None,
        }
    }
}

impl Numbered for FallStage {
    ghost number_of = { fall_stage_number };

    ghost kind_of = { fall_stage_of };

    #[inline(always)]
    fn number(self) -> u8 {
        self as u8
    }

    #[inline(always)]
    fn of(number: u8) -> Option<Self> {
        match number {
            0 => Some(FallStage::Control),
            1 => Some(FallStage::Clock),
            _ => None,
        }
    }
}

impl Numbered for LaunchStage {
    ghost number_of = { launch_stage_number };

    ghost kind_of = { launch_stage_of };

    #[inline(always)]
    fn number(self) -> u8 {
        self as u8
    }

    #[inline(always)]
    fn of(number: u8) -> Option<Self> {
        match number {
            0 => Some(LaunchStage::Control),
            1 => Some(LaunchStage::Status),
            2 => Some(LaunchStage::Read),
            3 => Some(LaunchStage::Write),
            _ => None,
        }
    }
}

impl Numbered for Flag {
    ghost number_of = { flag_number };

    ghost kind_of = { flag_of };

    #[inline(always)]
    fn number(self) -> u8 {
        self as u8
    }

    #[inline(always)]
    fn of(number: u8) -> Option<Self> {
        match number {
            0 => Some(Flag::Sb),
            1 => Some(Flag::Addr),
            2 => Some(Flag::Txe),
            3 => Some(Flag::Sent),
            4 => Some(Flag::Three),
            5 => Some(Flag::Two),
            6 => Some(Flag::Rxne),
            _ => None,
        }
    }
}

impl Numbered for WaitStage {
    ghost number_of = { wait_stage_number };

    ghost kind_of = { wait_stage_of };

    #[inline(always)]
    fn number(self) -> u8 {
        self as u8
    }

    #[inline(always)]
    fn of(number: u8) -> Option<Self> {
        match number {
            0 => Some(WaitStage::Status),
            1 => Some(WaitStage::Clear),
            2 => Some(WaitStage::Clock),
            _ => None,
        }
    }
}

impl Numbered for AddressStage {
    ghost number_of = { address_stage_number };

    ghost kind_of = { address_stage_of };

    #[inline(always)]
    fn number(self) -> u8 {
        self as u8
    }

    #[inline(always)]
    fn of(number: u8) -> Option<Self> {
        match number {
            0 => Some(AddressStage::Control),
            1 => Some(AddressStage::Master),
            2 => Some(AddressStage::Word),
            3 => Some(AddressStage::Cleared),
            _ => None,
        }
    }
}

impl Numbered for RecvStage {
    ghost number_of = { recv_stage_number };

    ghost kind_of = { recv_stage_of };

    #[inline(always)]
    fn number(self) -> u8 {
        self as u8
    }

    #[inline(always)]
    fn of(number: u8) -> Option<Self> {
        match number {
            0 => Some(RecvStage::Status),
            1 => Some(RecvStage::Data),
            _ => None,
        }
    }
}

impl Numbered for ReadStage {
    ghost number_of = { read_stage_number };

    ghost kind_of = { read_stage_of };

    #[inline(always)]
    fn number(self) -> u8 {
        self as u8
    }

    #[inline(always)]
    fn of(number: u8) -> Option<Self> {
        match number {
            0 => Some(ReadStage::PosWrite),
            1 => Some(ReadStage::AckRead),
            2 => Some(ReadStage::AckWrite),
            3 => Some(ReadStage::StartRead),
            4 => Some(ReadStage::StartWrite),
            5 => Some(ReadStage::NackRead),
            6 => Some(ReadStage::NackWrite),
            7 => Some(ReadStage::Third),
            8 => Some(ReadStage::AgainRead),
            9 => Some(ReadStage::AgainWrite),
            10 => Some(ReadStage::SecondLast),
            11 => Some(ReadStage::Last),
            12 => Some(ReadStage::PosOffRead),
            13 => Some(ReadStage::PosOffWrite),
            _ => None,
        }
    }
}

impl Numbered for StopFor {
    ghost number_of = { stop_for_number };

    ghost kind_of = { stop_for_of };

    #[inline(always)]
    fn number(self) -> u8 {
        self as u8
    }

    #[inline(always)]
    fn of(number: u8) -> Option<Self> {
        match number {
            0 => Some(StopFor::Write),
            1 => Some(StopFor::One),
            2 => Some(StopFor::Two),
            _ => None,
        }
    }
}

impl Numbered for Half {
    ghost number_of = { half_number };

    ghost kind_of = { half_of };

    #[inline(always)]
    fn number(self) -> u8 {
        self as u8
    }

    #[inline(always)]
    fn of(number: u8) -> Option<Self> {
        match number {
            0 => Some(Half::Read),
            1 => Some(Half::Write),
            _ => None,
        }
    }
}

impl Numbered for AbortStage {
    ghost number_of = { abort_stage_number };

    ghost kind_of = { abort_stage_of };

    #[inline(always)]
    fn number(self) -> u8 {
        self as u8
    }

    #[inline(always)]
    fn of(number: u8) -> Option<Self> {
        match number {
            0 => Some(AbortStage::FinishRead),
            1 => Some(AbortStage::FinishWrite),
            2 => Some(AbortStage::Control),
            3 => Some(AbortStage::Frequency),
            4 => Some(AbortStage::Divider),
            5 => Some(AbortStage::Rise),
            6 => Some(AbortStage::Reset),
            7 => Some(AbortStage::Release),
            8 => Some(AbortStage::PutFrequency),
            9 => Some(AbortStage::PutDivider),
            10 => Some(AbortStage::PutRise),
            11 => Some(AbortStage::Enable),
            12 => Some(AbortStage::Master),
            13 => Some(AbortStage::StopRead),
            14 => Some(AbortStage::StopWrite),
            _ => None,
        }
    }
}

// The group, which of the group's, and the phase.
#[inline(always)]
pub fn numbers_of(stage: Stage) -> (u8, u8, u8)
    ensures { result ≡ (stage_group stage, stage_what stage, stage_phase stage) }
{
    match stage {
        Stage::Begin => (0, 0, 0),
        Stage::WaitStop(what, phase) => (1, what.number(), phase.number()),
        Stage::LaunchStart(phase) => (2, 0, phase.number()),
        Stage::Wait(flag, phase) => (3, flag.number(), phase.number()),
        Stage::Address(phase) => (4, 0, phase.number()),
        Stage::SendByte => (5, 0, 0),
        Stage::RecvByte(phase) => (6, 0, phase.number()),
        Stage::ReadIter(phase) => (7, 0, phase.number()),
        Stage::GenerateStop(what, half) => (8, what.number(), half.number()),
        Stage::Abort(phase) => (9, 0, phase.number()),
        Stage::Ended => (10, 0, 0),
    }
}
