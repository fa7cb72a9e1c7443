//! Lines that no command prints yet, each kind of byte in a console's text, and sinks that fail.

use crate::line::{Line, Move};
use crate::output::{WriteFault, put_line};
use crate::place::Place;
use std::test::Fail;
use xm_base::State;
use xm_conf::{Action, Event};
use xm_outside::{MemSink, SureSink};

#[test]
fn health_lines_have_the_full_names(rt: HostRuntime) -> Result<(), Fail> {
    for (n, p, event, word, action, text) in [
        (
            6,
            0,
            Event::MemProtection,
            0x4000_0018,
            Action::Halt,
            "[6] P0 HM XM_HM_EV_MEM_PROTECTION 40000018 XM_HM_AC_HALT\n",
        ),
        (
            1000,
            1,
            Event::SparcIllegalInstruction,
            0x4018_0000,
            Action::Halt,
            "[1000] P1 HM XM_HM_EV_SPARC_ILLEGAL_INSTRUCTION 40180000 XM_HM_AC_HALT\n",
        ),
        (
            2,
            0,
            Event::PartitionError,
            42,
            Action::HypervisorWarmReset,
            "[2] P0 HM XM_HM_EV_PARTITION_ERROR 0000002a XM_HM_AC_HYPERVISOR_WARM_RESET\n",
        ),
        (
            0,
            0,
            Event::SparcIllegalInstruction,
            0x4010_0000,
            Action::HypervisorHalt,
            "[0] P0 HM XM_HM_EV_SPARC_ILLEGAL_INSTRUCTION 40100000 XM_HM_AC_HYPERVISOR_HALT\n",
        ),
        (
            7,
            2,
            Event::PartitionError,
            0x4010_abcd,
            Action::Ignore,
            "[7] P2 HM XM_HM_EV_PARTITION_ERROR 4010abcd XM_HM_AC_IGNORE\n",
        ),
        (
            7,
            2,
            Event::MemProtection,
            0x4010_abcd,
            Action::Shutdown,
            "[7] P2 HM XM_HM_EV_MEM_PROTECTION 4010abcd XM_HM_AC_SHUTDOWN\n",
        ),
        (
            7,
            2,
            Event::UnexpectedTrap,
            0x4010_abcd,
            Action::PartitionColdReset,
            "[7] P2 HM XM_HM_EV_UNEXPECTED_TRAP 4010abcd XM_HM_AC_PARTITION_COLD_RESET\n",
        ),
        (
            7,
            2,
            Event::SparcIllegalInstruction,
            0x4010_abcd,
            Action::PartitionWarmReset,
            "[7] P2 HM XM_HM_EV_SPARC_ILLEGAL_INSTRUCTION 4010abcd XM_HM_AC_PARTITION_WARM_RESET\n",
        ),
        (
            7,
            2,
            Event::SparcPrivilegedInstruction,
            0x4010_abcd,
            Action::Suspend,
            "[7] P2 HM XM_HM_EV_SPARC_PRIVILEGED_INSTRUCTION 4010abcd XM_HM_AC_SUSPEND\n",
        ),
        (
            7,
            2,
            Event::SparcFpDisabled,
            0x4010_abcd,
            Action::Halt,
            "[7] P2 HM XM_HM_EV_SPARC_FP_DISABLED 4010abcd XM_HM_AC_HALT\n",
        ),
        (
            7,
            2,
            Event::SparcCpDisabled,
            0x4010_abcd,
            Action::Propagate,
            "[7] P2 HM XM_HM_EV_SPARC_CP_DISABLED 4010abcd XM_HM_AC_PROPAGATE\n",
        ),
        (
            7,
            2,
            Event::SparcAddressNotAligned,
            0x4010_abcd,
            Action::HypervisorColdReset,
            "[7] P2 HM XM_HM_EV_SPARC_ADDRESS_NOT_ALIGNED 4010abcd XM_HM_AC_HYPERVISOR_COLD_RESET\n",
        ),
        (
            7,
            2,
            Event::SparcTagOverflow,
            0x4010_abcd,
            Action::HypervisorWarmReset,
            "[7] P2 HM XM_HM_EV_SPARC_TAG_OVERFLOW 4010abcd XM_HM_AC_HYPERVISOR_WARM_RESET\n",
        ),
        (
            7,
            2,
            Event::SparcDivideException,
            0x4010_abcd,
            Action::HypervisorHalt,
            "[7] P2 HM XM_HM_EV_SPARC_DIVIDE_EXCEPTION 4010abcd XM_HM_AC_HYPERVISOR_HALT\n",
        ),
        (
            7,
            2,
            Event::SparcInstrAccess,
            0x4010_abcd,
            Action::SwitchToMaintenance,
            "[7] P2 HM XM_HM_EV_SPARC_INSTR_ACCESS 4010abcd XM_HM_AC_SWITCH_TO_MAINTENANCE\n",
        ),
        (
            7,
            2,
            Event::SparcDataAccess,
            0x4010_abcd,
            Action::Halt,
            "[7] P2 HM XM_HM_EV_SPARC_DATA_ACCESS 4010abcd XM_HM_AC_HALT\n",
        ),
    ] {
        let mut out = MemSink::new(rt.alloc(), Vec::new(rt.alloc()), 30);
        let line = Line::Health {
            n,
            p,
            event,
            word,
            action,
        };
        put_line(&mut out, &line)?;
        assert_eq!(rt; out.got(), text.as_bytes(), "at {text}");
    }
    Ok(())
}

#[test]
fn each_other_line_has_its_text(rt: HostRuntime) -> Result<(), Fail> {
    for (line, text) in [
        (
            Line::Trace {
                n: 12,
                p: 3,
                bits: 0x8000_000c,
                load: [0x00, 0x01, 0x23, 0x45, 0xab, 0xcd, 0xef, 0xff],
            },
            "[12] P3 TRACE 8000000c 00012345abcdefff\n",
        ),
        (
            Line::Trace {
                n: 0,
                p: 255,
                bits: 0,
                load: [0; 8],
            },
            "[0] P255 TRACE 00000000 0000000000000000\n",
        ),
        (
            Line::Moved {
                n: 2,
                p: 1,
                to: Move::Suspend,
            },
            "[2] P1 SUSPEND\n",
        ),
        (
            Line::Moved {
                n: 2,
                p: 1,
                to: Move::Resume,
            },
            "[2] P1 RESUME\n",
        ),
        (
            Line::Moved {
                n: 2,
                p: 1,
                to: Move::Cold,
            },
            "[2] P1 COLD\n",
        ),
        (
            Line::Moved {
                n: 2,
                p: 1,
                to: Move::Warm,
            },
            "[2] P1 WARM\n",
        ),
        (
            Line::Whole {
                n: 0,
                to: Move::Halt,
            },
            "[0] XM HALT\n",
        ),
        (
            Line::Whole {
                n: 2,
                to: Move::Cold,
            },
            "[2] XM COLD\n",
        ),
        (
            Line::Whole {
                n: 2,
                to: Move::Warm,
            },
            "[2] XM WARM\n",
        ),
        (Line::PlanIs { n: 1999, plan: 2 }, "[1999] XM PLAN 2\n"),
        (Line::PlanIs { n: 1999, plan: 1 }, "[1999] XM PLAN 1\n"),
        (
            Line::EndWhole {
                halted: true,
                plan: 0,
                clock: 0,
                ticks: 0,
            },
            "END XM halted plan=0 clock=0 ticks=0\n",
        ),
        (
            Line::EndPart {
                p: 0,
                state: State::Idle,
                resets: 1,
                exec: 2,
                pc: 0x4010_0004,
            },
            "END P0 idle resets=1 exec=2 pc=40100004\n",
        ),
        (
            Line::EndPart {
                p: 15,
                state: State::Suspended,
                resets: 4_294_967_295,
                exec: 18_446_744_073_709_551_615,
                pc: 0x00c0_ffe8,
            },
            "END P15 suspended resets=4294967295 exec=18446744073709551615 pc=00c0ffe8\n",
        ),
        (
            Line::EndWhole {
                halted: true,
                plan: 7,
                clock: 3,
                ticks: 4,
            },
            "END XM halted plan=7 clock=3 ticks=4\n",
        ),
    ] {
        let mut out = MemSink::new(rt.alloc(), Vec::new(rt.alloc()), 2);
        put_line(&mut out, &line)?;
        assert_eq!(rt; out.got(), text.as_bytes(), "at {text}");
    }
    Ok(())
}

#[test]
fn upset_lines_have_the_place_and_the_bit(rt: HostRuntime) -> Result<(), Fail> {
    for (n, p, place, bit, text) in [
        (0, 0, Place::Global(1), 0, "[0] P0 UPSET g1 bit 0\n"),
        (3, 1, Place::Global(7), 31, "[3] P1 UPSET g7 bit 31\n"),
        (3, 1, Place::Windowed(0), 31, "[3] P1 UPSET w0 bit 31\n"),
        (3, 1, Place::Windowed(127), 9, "[3] P1 UPSET w127 bit 9\n"),
        (3, 1, Place::Pc, 2, "[3] P1 UPSET pc bit 2\n"),
        (3, 1, Place::Npc, 2, "[3] P1 UPSET npc bit 2\n"),
        (3, 1, Place::YRegister, 10, "[3] P1 UPSET y bit 10\n"),
        (3, 1, Place::Conditions, 3, "[3] P1 UPSET icc bit 3\n"),
        (
            3,
            1,
            Place::HardwareDeadline,
            62,
            "[3] P1 UPSET hw bit 62\n",
        ),
        (
            3,
            1,
            Place::ExecutionDeadline,
            0,
            "[3] P1 UPSET exec bit 0\n",
        ),
        (3, 1, Place::TrapBase, 12, "[3] P1 UPSET tbr bit 12\n"),
        (3, 1, Place::Mask, 16, "[3] P1 UPSET mask bit 16\n"),
        (3, 1, Place::Pending, 17, "[3] P1 UPSET pending bit 17\n"),
        (
            10,
            1,
            Place::MemoryByte(0x4010_0010),
            3,
            "[10] P1 UPSET 40100010 bit 3\n",
        ),
        (
            18_446_744_073_709_551_615,
            255,
            Place::MemoryByte(0x0000_00af),
            7,
            "[18446744073709551615] P255 UPSET 000000af bit 7\n",
        ),
    ] {
        let mut out = MemSink::new(rt.alloc(), Vec::new(rt.alloc()), 5);
        put_line(&mut out, &Line::Struck { n, p, place, bit })?;
        assert_eq!(rt; out.got(), text.as_bytes(), "at {text}");
    }
    Ok(())
}

#[test]
fn what_is_not_printed_is_escaped(rt: HostRuntime) -> Result<(), Fail> {
    for (byte, text) in [
        (0x00, "[0] P0 CON \\x00\n"),
        (0x09, "[0] P0 CON \\x09\n"),
        (0x0a, "[0] P0 CON \\n\n"),
        (0x0d, "[0] P0 CON \\x0d\n"),
        (0x1f, "[0] P0 CON \\x1f\n"),
        (0x20, "[0] P0 CON  \n"),
        (0x5b, "[0] P0 CON [\n"),
        (0x5c, "[0] P0 CON \\\\\n"),
        (0x5d, "[0] P0 CON ]\n"),
        (0x7e, "[0] P0 CON ~\n"),
        (0x7f, "[0] P0 CON \\x7f\n"),
        (0xa5, "[0] P0 CON \\xa5\n"),
        (0xff, "[0] P0 CON \\xff\n"),
    ] {
        let mut out = MemSink::new(rt.alloc(), Vec::new(rt.alloc()), 100);
        put_line(
            &mut out,
            &Line::Console {
                n: 0,
                p: 0,
                bytes: &[byte],
            },
        )?;
        assert_eq!(rt; out.got(), text.as_bytes(), "at {byte}");
    }
    Ok(())
}

#[test]
fn a_sink_that_fails_has_a_prefix_of_the_line(rt: HostRuntime) -> Result<(), Fail> {
    let system = Line::System {
        parts: 2,
        plans: 1,
        ticks: 6000,
    };
    let health = Line::Health {
        n: 6,
        p: 0,
        event: Event::MemProtection,
        word: 0x4000_0018,
        action: Action::Halt,
    };
    let trace = Line::Trace {
        n: 12,
        p: 3,
        bits: 0x8000_000c,
        load: [0xab; 8],
    };
    let plan = Line::PlanIs { n: 1999, plan: 2 };
    for (line, call, step, text) in [
        (system, 0, 5, ""),
        (system, 2, 5, "SYSTEM par"),
        (system, 9, 0, ""),
        (system, 6, 5, "SYSTEM parts=2 plans=1 ticks=6"),
        (health, 1, 40, "[6] P0 HM XM_HM_EV_MEM_PROTECTION 400000"),
        (trace, 3, 8, "[12] P3 TRACE 8000000c a"),
        (plan, 1, 16, "[1999] XM PLAN 2"),
    ] {
        let mut out = MemSink::new(rt.alloc(), vec![in rt.alloc(); call]?, step);
        assert_eq!(rt; put_line(&mut out, &line), Err(WriteFault), "at {text}");
        assert_eq!(rt; out.got(), text.as_bytes(), "at {text}");
        assert_eq!(rt; put_line(&mut SureSink::new(), &line), Ok(()), "at {text}");
    }
    Ok(())
}
