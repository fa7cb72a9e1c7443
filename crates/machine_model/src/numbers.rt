//! The hypercalls by their numbers.

ghost use Rattle.std.specs.Prelude.{◌≡◌};
ghost use Rattle.machine_model.specs.Calls.{call_of, number_of_call};

/// A hypercall; it has the number that stands beside it.
#[derive(Clone, Copy, Debug)]
pub enum Call {
    GetSelf = 1,
    HaltPartition = 2,
    ResetPartition = 3,
    SuspendPartition = 4,
    ResumePartition = 5,
    ShutdownPartition = 6,
    IdleSelf = 7,
    GetPartitionStatus = 8,
    HaltSystem = 9,
    ResetSystem = 10,
    GetSystemStatus = 11,
    GetTime = 12,
    SetTimer = 13,
    SwitchSchedPlan = 14,
    GetPlanStatus = 15,
    CreateSamplingPort = 16,
    WriteSamplingMessage = 17,
    ReadSamplingMessage = 18,
    GetSamplingPortStatus = 19,
    CreateQueuingPort = 20,
    SendQueuingMessage = 21,
    ReceiveQueuingMessage = 22,
    GetQueuingPortStatus = 23,
    TraceEvent = 24,
    TraceRead = 25,
    TraceStatus = 26,
    RaiseEvent = 27,
    HmRead = 28,
    HmStatus = 29,
    SetIrqmask = 30,
    ClearIrqmask = 31,
    WriteConsole = 32,
    ReadInput = 33,
    Iret = 34,
    SetPsr = 35,
    SetTbr = 36,
    FlushRegwin = 37,
    RaiseIpvi = 38,
}

/// The call of a number, where it is a call's.
#[inline(always)]
pub fn call_of(number: u32) -> Option<Call>
    // The call whose number it is; none where it is no call's.
    ensures { result ≡ call_of number }
{
    match number {
        1 => Some(Call::GetSelf),
        2 => Some(Call::HaltPartition),
        3 => Some(Call::ResetPartition),
        4 => Some(Call::SuspendPartition),
        5 => Some(Call::ResumePartition),
        6 => Some(Call::ShutdownPartition),
        7 => Some(Call::IdleSelf),
        8 => Some(Call::GetPartitionStatus),
        9 => Some(Call::HaltSystem),
        10 => Some(Call::ResetSystem),
        11 => Some(Call::GetSystemStatus),
        12 => Some(Call::GetTime),
        13 => Some(Call::SetTimer),
        14 => Some(Call::SwitchSchedPlan),
        15 => Some(Call::GetPlanStatus),
        16 => Some(Call::CreateSamplingPort),
        17 => Some(Call::WriteSamplingMessage),
        18 => Some(Call::ReadSamplingMessage),
        19 => Some(Call::GetSamplingPortStatus),
        20 => Some(Call::CreateQueuingPort),
        21 => Some(Call::SendQueuingMessage),
        22 => Some(Call::ReceiveQueuingMessage),
        23 => Some(Call::GetQueuingPortStatus),
        24 => Some(Call::TraceEvent),
        25 => Some(Call::TraceRead),
        26 => Some(Call::TraceStatus),
        27 => Some(Call::RaiseEvent),
        28 => Some(Call::HmRead),
        29 => Some(Call::HmStatus),
        30 => Some(Call::SetIrqmask),
        31 => Some(Call::ClearIrqmask),
        32 => Some(Call::WriteConsole),
        33 => Some(Call::ReadInput),
        34 => Some(Call::Iret),
        35 => Some(Call::SetPsr),
        36 => Some(Call::SetTbr),
        37 => Some(Call::FlushRegwin),
        38 => Some(Call::RaiseIpvi),
        _ => None,
    }
}

/// The number of a call.
pub fn number_of_call(call: Call) -> u8
    // The number of the call, 1 to 38.
    ensures { result ≡ number_of_call call }
{
    call as u8
}
