use ext_mean::lookup_program;
use ext_print::print;
use std::test::Fail;

#[test]
fn a_look_up_has_its_canonical_text(rt: HostRuntime) -> Result<(), Fail> {
    let program = lookup_program(rt.alloc(), 5, 0)?;
    let text = print(rt.alloc(), &program)?;
    let want: &[u8] = b"fn main()->int{get(5,args()){some s=>{resp(s);}none=>{}}return 0;}\n";
    assert_eq!(rt; text.bytes(), want);
    Ok(())
}
