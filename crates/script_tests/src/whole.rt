use sched_text::{Event, read_script};
use sp_base::{Level, Policy, TableId, TenantId};
use std::test::Fail;

#[test]
fn a_script_is_read_whole(rt: HostRuntime) -> Result<(), Fail> {
    let alloc = rt.alloc();
    let text =
        b"# three tenants\ntenant 9 11\ntenant 2 12\ntable 7 2 write\ntable 3 2 read\n\nworkers 3\next 9 2\na\n#b\nbegin 2 9 4 5 6 77 stay x0aff\nsteal 0 2";
    let Ok(script) = read_script(alloc, text) else {
        return Err("no script")?;
    };
    let head = &script.head;
    assert_eq!(rt;
        head.tenants.as_slice(),
        [(TenantId(2), 12), (TenantId(9), 11)].as_slice()
    );
    assert_eq!(rt;
        head.policy,
        Policy {
            high: 64,
            least: 1000
        }
    );
    assert_eq!(rt; head.limit, 1_048_576);
    assert_eq!(rt; head.workers, 3);
    let [(two, rights), (nine, none)] = head.rights.as_slice() else {
        return Err("two tenants")?;
    };
    assert_eq!(rt; *two, TenantId(2));
    assert_eq!(rt;
        rights.as_slice(),
        [(TableId(3), Level::Read), (TableId(7), Level::Write)].as_slice()
    );
    assert_eq!(rt; *nine, TenantId(9));
    assert_eq!(rt; none.as_slice().len(), 0);
    let [
        (ext_line, Event::Ext { tenant, text }),
        (begin_line, begin),
        (steal_line, steal),
    ] = script.events.as_slice()
    else {
        return Err("three events")?;
    };
    assert_eq!(rt; *ext_line, 8);
    assert_eq!(rt; *begin_line, 11);
    assert_eq!(rt; *steal_line, 12);
    assert_eq!(rt; *tenant, TenantId(9));
    assert_eq!(rt; text.bytes(), b"a\n#b\n".as_slice());
    let Event::Steal { worker, from } = steal else {
        return Err("a steal")?;
    };
    assert_eq!(rt; *worker, 0);
    assert_eq!(rt; *from, 2);
    let Event::Begin { worker, asked, .. } = begin else {
        return Err("a call")?;
    };
    assert_eq!(rt; *worker, 2);
    assert_eq!(rt; asked.caller, 4);
    assert_eq!(rt; asked.number.0, 5);
    assert_eq!(rt; asked.ext.0, 6);
    assert_eq!(rt; asked.budget, 77);
    assert_eq!(rt; asked.push_ok, false);
    assert_eq!(rt; asked.args.bytes(), [10, 255].as_slice());
    Ok(())
}

#[test]
fn pushed_calls_are_read(rt: HostRuntime) -> Result<(), Fail> {
    let text = b"tenant 2 7\npolicy 3 17\nbegin 0 2 1 1 0 100 push x\naway 2 8\ncut 2 9\n";
    let Ok(script) = read_script(rt.alloc(), text) else {
        return Err("no script")?;
    };
    assert_eq!(rt; script.head.policy, Policy { high: 3, least: 17 });
    let [(_, begin), (away_line, away), (cut_line, cut)] = script.events.as_slice() else {
        return Err("three events")?;
    };
    let Event::Begin { asked, .. } = begin else {
        return Err("a call")?;
    };
    assert_eq!(rt; asked.push_ok, true);
    let Event::Away { tenant, caller } = away else {
        return Err("a pushed call that goes on")?;
    };
    assert_eq!(rt; *away_line, 4);
    assert_eq!(rt; *tenant, TenantId(2));
    assert_eq!(rt; *caller, 8);
    let Event::Cut { tenant, caller } = cut else {
        return Err("a pushed call that is forgotten")?;
    };
    assert_eq!(rt; *cut_line, 5);
    assert_eq!(rt; *tenant, TenantId(2));
    assert_eq!(rt; *caller, 9);
    Ok(())
}
