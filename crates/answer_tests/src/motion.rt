//! Vehicles: each modifier with each of its arguments, and the vehicles that inherit.

use crate::cases::{Case, Wanted, answer_is, answer_to, cases_hold, count_of};
use std::alloc::{AllocError, Global};
use std::test::Fail;

const OWN: [Case; 2] = [
    Case {
        source: "import osc.standard
scenario top:
    ego: vehicle
    do ego.drive(duration: 0.1s) with:
        lane(2)
        lane(3, at: end)
        speed(10mps, at: all)
        speed(11mps, at: end)
        position(5m, at: start)
",
        setting: "--ticks 1",
        wanted: Wanted::Whole(
            "0 {\"choices\":[],\"end\":1,\"form\":2,\"phases\":[[\"do\",0,1]],\"tick\":100,\"traces\":[[\"ego\",[[2,5000000,10000],[3,6000000,11000]]]],\"values\":[[\"ego.max_speed\",50000],[\"ego.max_acceleration\",10000]]}\n",
        ),
    },
    Case {
        source: "import osc.standard
scenario top:
    ego: vehicle
    cruise: speed = 36kph
    do ego.drive(duration: 0.1s) with:
        lane([2..9])
        lane(range(1, 2), at: all)
        lane([1..ego.max_speed / 50mps], at: end)
        speed([cruise..10mps])
        speed(cruise + 1mps / 2, at: end)
        position([5m..2 * 2.5m], at: start)
        position(6m, at: end)
",
        setting: "--ticks 1 --lanes 2",
        wanted: Wanted::Whole(
            "0 {\"choices\":[],\"end\":1,\"form\":2,\"phases\":[[\"do\",0,1]],\"tick\":100,\"traces\":[[\"ego\",[[2,5000000,10000],[1,6000000,10500]]]],\"values\":[[\"ego.max_speed\",50000],[\"ego.max_acceleration\",10000],[\"cruise\",10000]]}\n",
        ),
    },
];

#[test]
fn own_motion(rt: HostRuntime) -> Result<(), Fail> {
    cases_hold(&rt, &OWN)
}

const OTHERS: [Case; 2] = [
    Case {
        source: "import osc.standard
scenario top:
    ego, npc: vehicle
    do parallel(duration: 0.1s):
        ego.drive() with:
            lane(2)
            lane(2, at: end)
            speed(10mps)
            speed(10mps, at: end)
            position(50m, at: start)
        npc.drive() with:
            lane(left_of: ego)
            lane(same_as: ego, at: end)
            speed(1mps, faster_than: ego)
            speed(same_as: ego, at: end)
            position(20m, ahead_of: ego, at: start)
",
        setting: "--ticks 1",
        wanted: Wanted::Whole(
            "0 {\"choices\":[],\"end\":1,\"form\":2,\"phases\":[[\"do\",0,1],[\"do[0]\",0,1],[\"do[1]\",0,1]],\"tick\":100,\"traces\":[[\"ego\",[[2,50000000,10000],[2,51000000,10000]]],[\"npc\",[[3,70000000,11000],[2,71100000,10000]]]],\"values\":[[\"ego.max_speed\",50000],[\"ego.max_acceleration\",10000],[\"npc.max_speed\",50000],[\"npc.max_acceleration\",10000]]}\n",
        ),
    },
    Case {
        source: "import osc.standard
scenario top:
    ego, npc: vehicle
    do parallel(duration: 0.1s):
        ego.drive() with:
            lane(2)
            lane(2, at: end)
            speed(10mps)
            speed(10mps, at: end)
            position(50m, at: start)
        npc.drive() with:
            lane(right_of: ego)
            lane(right_of: ego, at: end)
            speed([1mps..1mps], slower_than: ego)
            speed(0.5mps, slower_than: ego, at: end)
            position([20m..20m], behind: ego, at: start)
            position([0m..99m], behind: ego)
",
        setting: "--ticks 1",
        wanted: Wanted::Whole(
            "0 {\"choices\":[],\"end\":1,\"form\":2,\"phases\":[[\"do\",0,1],[\"do[0]\",0,1],[\"do[1]\",0,1]],\"tick\":100,\"traces\":[[\"ego\",[[2,50000000,10000],[2,51000000,10000]]],[\"npc\",[[1,30000000,9000],[1,30900000,9500]]]],\"values\":[[\"ego.max_speed\",50000],[\"ego.max_acceleration\",10000],[\"npc.max_speed\",50000],[\"npc.max_acceleration\",10000]]}\n",
        ),
    },
];

#[test]
fn motion_beside_another_vehicle(rt: HostRuntime) -> Result<(), Fail> {
    cases_hold(&rt, &OTHERS)
}

const HEIRS: [Case; 4] = [
    Case {
        source: "import osc.standard
actor truck inherits vehicle:
    load: int = 2
action vehicle.crawl inherits vehicle.drive:
    keep(actor.max_speed == 5mps)
scenario top:
    t: truck
    do t.crawl(duration: 0.1s) with:
        speed(5mps)
        speed(5mps, at: end)
        position(0m, at: start)
        keep(it.duration == 0.1s)
",
        setting: "--ticks 1 --lanes 1",
        wanted: Wanted::Whole(
            "0 {\"choices\":[],\"end\":1,\"form\":2,\"phases\":[[\"do\",0,1]],\"tick\":100,\"traces\":[[\"t\",[[1,0,5000],[1,500000,5000]]]],\"values\":[[\"t.max_speed\",5000],[\"t.max_acceleration\",10000],[\"t.load\",2]]}\n",
        ),
    },
    Case {
        source: "import osc.standard
scenario vehicle.tour:
    other: vehicle
    do actor.drive(duration: 0.1s) with:
        speed(same_as: other)
        speed(same_as: other, at: end)
        position(0m, ahead_of: other, at: start)
scenario top:
    a, b: vehicle
    do parallel:
        a.tour(b)
        b.drive() with:
            speed(20mps)
            speed(19mps, at: end)
            position(1m, at: start)
",
        setting: "--ticks 1 --lanes 1",
        wanted: Wanted::Whole(
            "0 {\"choices\":[],\"end\":1,\"form\":2,\"phases\":[[\"do\",0,1],[\"do[0]\",0,1],[\"do[0].do\",0,1],[\"do[1]\",0,1]],\"tick\":100,\"traces\":[[\"a\",[[1,1000000,20000],[1,3000000,19000]]],[\"b\",[[1,1000000,20000],[1,3000000,19000]]]],\"values\":[[\"a.max_speed\",50000],[\"a.max_acceleration\",10000],[\"b.max_speed\",50000],[\"b.max_acceleration\",10000]]}\n",
        ),
    },
    Case {
        source: "import osc.standard
struct pair:
    lead, tail: vehicle
scenario top:
    p: pair
    do p.lead.drive() with:
        position(1m, ahead_of: p.tail, at: start)
",
        setting: "--ticks 1 --lanes 1",
        wanted: Wanted::Ends(
            r#"0 {"choices":[],"end":1,"form":2,"phases":[["do",0,1]],"tick":100,"traces":[["p.lead",[[1,"#,
            "]]]],\"values\":[[\"p.lead.max_speed\",50000],[\"p.lead.max_acceleration\",10000],[\"p.tail.max_speed\",50000],[\"p.tail.max_acceleration\",10000]]}\n",
            17,
        ),
    },
    Case {
        source: "import osc.standard
scenario top:
    ego: vehicle
    keep(ego.max_acceleration == 0mpsps)
    do serial:
        wait elapsed(0.1s)
        ego.drive(duration: 0.2s) with:
            speed(100m / 4s)
            position(7.5m, at: end)
",
        setting: "--ticks 3 --lanes 1 --road 8",
        wanted: Wanted::Whole(
            "0 {\"choices\":[],\"end\":3,\"form\":2,\"phases\":[[\"do\",0,3],[\"do[0]\",0,1],[\"do[1]\",1,3]],\"tick\":100,\"traces\":[[\"ego\",[[1,0,25000],[1,2500000,25000],[1,5000000,25000],[1,7500000,25000]]]],\"values\":[[\"ego.max_speed\",50000],[\"ego.max_acceleration\",0]]}\n",
        ),
    },
];

#[test]
fn vehicles_and_drives_that_inherit(rt: HostRuntime) -> Result<(), Fail> {
    cases_hold(&rt, &HEIRS)
}

/// The scene has 1,805 slots, and its run one sample.
#[test]
fn many_slots_and_many_cuts(rt: HostRuntime) -> Result<(), Fail> {
    let source = "import osc.standard
scenario top:
    ego: vehicle
";
    let line = "generate main.osc top --ticks 600 --cuts 1000000";
    let got = answer_to(rt.alloc(), line, source, "")?;
    let got = got.as_str();
    assert!(rt;
        got.starts_with(
            r#"0 {"choices":[],"end":0,"form":2,"phases":[],"tick":100,"traces":[["ego",[["#
        ),
        "{got}"
    );
    assert!(rt;
        got.ends_with(
            "]]]],\"values\":[[\"ego.max_speed\",50000],[\"ego.max_acceleration\",10000]]}\n"
        ),
        "{got}"
    );
    assert_eq!(rt; count_of(got, b'['), 9);
    Ok(())
}

/// A vehicle comes from behind on the left, and is in the other's lane at the end, ahead of it.
const CUT_IN: &str = "import osc.standard
scenario top:
    ego: vehicle
    npc: vehicle
    do serial:
        approach: parallel:
            ego.drive(duration: 3s) with:
                lane(1)
                speed(20mps)
                position(100m, at: start)
            npc.drive(duration: 3s) with:
                lane(2)
                speed(25mps)
                position([10m..20m], behind: ego, at: start)
        change: parallel:
            ego.drive(duration: 3s) with:
                lane(1)
                speed(20mps)
            npc.drive(duration: 3s) with:
                lane(2, at: start)
                speed(25mps)
                lane(same_as: ego, at: end)
                position([5m..30m], ahead_of: ego, at: end)
";

/// How the answer begins: with the phases, and all samples of the ego vehicle but its last.
fn front_of_the_cut_in(alloc: Global) -> Result<String, AllocError> {
    let mut front = String::from_str(
        alloc,
        "0 {\"choices\":[],\"end\":60,\"form\":2,\"phases\":[[\"do\",0,60],[\"do[0]\",0,30],[\"do[0][0]\",0,30],[\"do[0][1]\",0,30],[\"do[1]\",30,60],[\"do[1][0]\",30,60],[\"do[1][1]\",30,60]],\"tick\":100,\"traces\":[[\"ego\",[",
    )?;
    for tick in 0..60u32 {
        write!(front, "[1,{},20000],", 100_000_000 + 2_000_000 * tick)?;
    }
    Ok(front)
}

/// The samples of the other vehicle while it is on the left.
fn left_of_the_ego(alloc: Global) -> Result<String, AllocError> {
    let mut samples = String::from_str(alloc, "[\"npc\",[")?;
    for tick in 0..31u32 {
        write!(samples, "[2,{},25000],", 80_000_000 + 2_500_000 * tick)?;
    }
    Ok(samples)
}

/// The road ends where the other vehicle comes to at the last tick, so it starts 20 m behind.
#[test]
fn a_cut_in(rt: HostRuntime) -> Result<(), Fail> {
    let alloc = rt.alloc();
    let words = "generate main.osc top --ticks 60 --road 230";
    let got = answer_to(alloc, words, CUT_IN, "")?;
    let front = front_of_the_cut_in(alloc)?;
    assert!(rt;
        got.as_str().starts_with(front.as_str()),
        "{}",
        got.as_str()
    );
    let samples = left_of_the_ego(alloc)?;
    assert!(rt; got.as_str().contains(samples.as_str()), "{}", got.as_str());
    assert!(rt; got.as_str().contains(",230000000,"), "{}", got.as_str());
    let run = got.as_str().strip_prefix("0 ").unwrap_or("");
    let words = "check main.osc top written --ticks 60 --road 230";
    answer_is(&rt, words, CUT_IN, run, "0 yes\n")
}
