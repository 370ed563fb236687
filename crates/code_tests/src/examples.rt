//! The worked extensions, as a tenant writes them. The longer ones stand in `examples/` with their
//! comments.

/// Those on one line: a look-up, a counter, two hops, a deletion, a blind write, a pair that may be torn, a
/// read of the own write, and more writes than a run may have.
pub const SHORT: &str = r#"get(5, args()) { some s => { resp(s); } none => { } } return 0;
let n: int = 0; get(6, args()) { some s => { n = u64(s, 0); } none => { } } let b: buf = alloc(6, args(), 8); set8(b, 0, n + 1); put(b); return n + 1;
get(5, args()) { some s => { multiget(5, s, 1) { some u => { resp(u); } none => { } } } none => { } } return 0;
del(6, args()); return 0;
let b: buf = alloc(6, "k", 1); set(b, 0, byte(args(), 0)); put(b); return 0;
let a: int = 0; let c: int = 0; get(6, "a") { some s => { a = u64(s, 0); } none => { } } get(6, "b") { some s => { c = u64(s, 0); } none => { } } while a != c { } return 0;
let b: buf = alloc(6, "k", 1); put(b); get(6, "k") { some s => { return byte(s, 0) + 5; } none => { } } return 9;
let i: int = 0; while i < 65 { let k: temp = temp(1); set(k, 0, i); let b: buf = alloc(6, view(k), 0); put(b); i = i + 1; } return 0;"#;

const BOUNDED_LIST: &str = r#"fn main() -> int {
  let key: slice = sub(args(), 0, 8);
  let item: slice = sub(args(), 8, 8);
  get(6, key) {
    some items => {
      let dropped: int = 0;
      if len(items) >= 32 { dropped = len(items) - 24; }
      let kept: int = len(items) - dropped;
      let list: buf = alloc(6, key, kept + 8);
      copy(list, 0, sub(items, dropped, kept));
      copy(list, kept, item);
      put(list);
      return kept / 8 + 1;
    }
    none => { }
  }
  let list: buf = alloc(6, key, 8);
  copy(list, 0, item);
  put(list);
  return 1;
}
"#;

const COMPARE_AND_SET: &str = r#"fn main() -> int {
  let held: int = 0;
  get(6, "value") {
    some s => { held = u64(s, 0); }
    none => { }
  }
  if held != u64(args(), 0) { return 1; }
  let b: buf = alloc(6, "value", 8);
  copy(b, 0, sub(args(), 8, 8));
  put(b);
  return 0;
}
"#;

const COUNTER: &str = r#"fn main() -> int {
  let n: int = 0;
  get(6, args()) {
    some s => { n = u64(s, 0); }
    none => { }
  }
  let b: buf = alloc(6, args(), 8);
  set8(b, 0, n + 1);
  put(b);
  return n + 1;
}
"#;

const INDEX: &str = r#"fn is_listed(keys: slice, key: slice) -> bool {
  let at: int = 0;
  let found: bool = false;
  while at < len(keys) {
    if sub(keys, at, 8) == key { found = true; }
    at = at + 8;
  }
  return found;
}

fn main() -> int {
  let key: slice = sub(args(), 0, 8);
  let value: slice = sub(args(), 8, len(args()) - 8);
  let record: buf = alloc(6, key, len(value));
  copy(record, 0, value);
  put(record);
  get(7, sub(key, 0, 1)) {
    some keys => {
      let known: bool = is_listed(keys, key);
      if known { return 0; }
      let list: buf = alloc(7, sub(key, 0, 1), len(keys) + 8);
      copy(list, 0, keys);
      copy(list, len(keys), key);
      put(list);
    }
    none => {
      let list: buf = alloc(7, sub(key, 0, 1), 8);
      copy(list, 0, key);
      put(list);
    }
  }
  return 1;
}
"#;

const RATE_LIMIT: &str = r#"fn main() -> int {
  let who: slice = sub(args(), 0, 8);
  let window: int = u64(args(), 8);
  let count: int = 0;
  get(6, who) {
    some s => { if u64(s, 0) == window { count = u64(s, 8); } }
    none => { }
  }
  if count >= 3 { return 0; }
  let seen: buf = alloc(6, who, 16);
  set8(seen, 0, window);
  set8(seen, 8, count + 1);
  put(seen);
  return 1;
}
"#;

const TRANSFER: &str = r#"fn balance(account: slice) -> int {
  get(6, account) {
    some s => { return u64(s, 0); }
    none => { }
  }
  return 0;
}

fn keep(account: slice, amount: int) -> int {
  let kept: buf = alloc(6, account, 8);
  set8(kept, 0, amount);
  put(kept);
  return amount;
}

fn main() -> int {
  let amount: int = u64(args(), 0);
  let payer: slice = sub(args(), 8, 8);
  let payee: slice = sub(args(), 16, 8);
  if payer == payee { return 2; }
  let had: int = balance(payer);
  if had < amount { return 1; }
  let held: int = balance(payee);
  if held + amount < held { return 3; }
  let left: int = keep(payer, had - amount);
  let right: int = keep(payee, held + amount);
  return 0;
}
"#;

const TWO_HOPS: &str = r#"fn main() -> int {
  get(5, args()) {
    some s => {
      multiget(5, s, 1) {
        some u => { resp(u); }
        none => { }
      }
    }
    none => { }
  }
  return 0;
}
"#;

/// All of them.
pub const EXAMPLES: [&str; 7] = [
    BOUNDED_LIST,
    COMPARE_AND_SET,
    COUNTER,
    INDEX,
    RATE_LIMIT,
    TRANSFER,
    TWO_HOPS,
];
