//! Tests of members: bodies that earn every rule and have every form, in both languages, ambient and not. What is wanted
//! of each is what oxc_parser 0.156.0 answers, but for the six differences that docs/DIFFERENCES.md lists.

#![tactic(auto)]

use brackets::Brackets;
use kinds::context::Context;
use laws::read_body;
use list::list::List;
use reports::Report;
use session::state::{Language, Session};
use text::Text;
use trivia::Trivia;

fn rule_and_place(report: Report) -> [u32; 3] {
    [u32::from(report.rule), report.start, report.end]
}

// Whether a body is read whole and earns those reports and no others.
fn earns(language: Language, bits: u16, text: &[u8], wanted: &[[u32; 3]]) -> bool {
    let Some(context) = Context::from_bits(bits) else {
        return false;
    };
    let mut report_room = [blanks::report(); 16];
    let mut member_room = [blanks::member(); 16];
    let mut reports = List::new(&mut report_room);
    let mut members = List::new(&mut member_room);
    let mut session = Session::new(language, context);
    let mut script = Brackets::new(Trivia::new(Text::new(text).reader));
    if read_body(&mut session, &mut script, &mut reports, &mut members).is_err() {
        return false;
    }
    let told = reports.as_slice().iter().copied().map(rule_and_place);
    told.eq(wanted.iter().copied()) && reports.missed() == 0
}

fn ts(bits: u16, text: &[u8], wanted: &[[u32; 3]]) -> bool {
    earns(Language::TypeScript, bits, text, wanted)
}

fn js(bits: u16, text: &[u8], wanted: &[[u32; 3]]) -> bool {
    earns(Language::JavaScript, bits, text, wanted)
}

#[cfg(test)]
mod tests {
    use super::*;

    #[test]
    fn bodies_1(rt: HostRuntime) {
        assert!(rt;
            js(
                0,
                b"\n{accessor'constructor'\n;static constructor(a ?,a :T,): string{ +,0 a} }",
                &[[26, 10, 23]],
            )
        );
        assert!(rt; js(0, b" { get\t#", &[[49, 7, 8]]));
        assert!(rt;
            js(
                0,
                b" {accessor async get/***/42 (...\txs,  {/*a*//*b*/a? }=/*{*/0 )/*a*//*b*/{\t}\n}",
                &[[33, 28, 62], [14, 2, 10], [15, 11, 16]],
            )
        );
        assert!(rt;
            js(
                0,
                b"/* c */{/*a*//*b*/abstract async protected x() {}}",
                &[
                    [3, 27, 32],
                    [5, 33, 42],
                    [7, 18, 26],
                    [7, 33, 42],
                    [46, 43, 44],
                ],
            )
        );
        assert!(rt;
            js(
                0,
                b"/* c */{abstract override override constructor(){};}",
                &[[2, 26, 34], [7, 8, 16], [7, 26, 34], [42, 35, 46]],
            )
        );
        assert!(rt;
            js(
                0,
                b"/* c */{async static[in :number] :void;}",
                &[[5, 14, 20], [9, 8, 13]],
            )
        );
        assert!(rt;
            js(
                0,
                b"// c\n{abstract declare private in get x () {}}",
                &[
                    [3, 23, 30],
                    [7, 6, 14],
                    [7, 15, 22],
                    [7, 23, 30],
                    [7, 31, 33],
                    [11, 31, 33],
                    [45, 38, 39],
                    [15, 15, 22],
                ],
            )
        );
        assert!(rt;
            js(
                0,
                b"{ @ x1\r\noverride declare accessor constructor?\r\n( b? ,b:number, a]//c\n{(]};}",
                &[
                    [4, 17, 24],
                    [19, 2, 6],
                    [7, 8, 16],
                    [7, 17, 24],
                    [16, 17, 24],
                    [14, 25, 33],
                    [51, 45, 46],
                ],
            )
        );
        assert!(rt;
            js(
                0,
                b"{ get constructor< T > ( ){ } }",
                &[[39, 6, 17], [32, 17, 22]],
            )
        );
        assert!(rt;
            js(
                0,
                b"{\"constructor\"; static \"prototype\"; #constructor; get constructor() {} *constructor() {} async constructor() {} }",
                &[
                    [27, 1, 14],
                    [28, 23, 34],
                    [20, 36, 48],
                    [39, 54, 65],
                    [41, 72, 83],
                    [40, 95, 106],
                ],
            )
        );
        assert!(rt;
            js(
                0,
                b"{@a @a @a @a @a @a @a @a @a @a @a @a @a @a @a @a @a x}",
                &[[52, 49, 50]],
            )
        );
        assert!(rt;
            js(
                0,
                b"{abstract #x; abstract x = 1; declare x: t = 1; declare readonly x = 1}",
                &[
                    [7, 1, 9],
                    [29, 1, 9],
                    [7, 14, 22],
                    [30, 23, 24],
                    [7, 30, 37],
                    [49, 39, 40],
                ],
            )
        );
    }

    #[test]
    fn bodies_2(rt: HostRuntime) {
        assert!(rt;
            js(
                0,
                b"{in constructor(): $t;}",
                &[[7, 1, 3], [11, 1, 3], [48, 19, 21]],
            )
        );
        assert!(rt;
            js(
                0,
                b"{public public *constructor<T>(, a ?:_/*a*//*b*/)\n}",
                &[[1, 8, 14], [7, 8, 14], [41, 16, 27], [43, 27, 30]],
            )
        );
        assert!(rt;
            js(
                0,
                b"{readonly accessor readonly expires}",
                &[[2, 19, 27], [7, 19, 27], [13, 19, 27]],
            )
        );
        assert!(rt;
            js(
                0,
                b"{static in set x/*\n*/(this ] {} }",
                &[[7, 8, 10], [11, 8, 10], [34, 21, 28]],
            )
        );
        assert!(rt;
            js(
                64,
                b"\t{const accessor out static { } }",
                &[[8, 2, 7], [8, 8, 16], [8, 17, 20]],
            )
        );
        assert!(rt;
            js(
                64,
                b" {const override out const x=1}",
                &[
                    [2, 21, 26],
                    [7, 8, 16],
                    [7, 17, 20],
                    [7, 21, 26],
                    [11, 17, 20],
                    [10, 21, 26],
                    [31, 29, 30],
                ],
            )
        );
        assert!(rt;
            js(
                64,
                b"{ accessor set #constructor( v/*/*/= 1 ) {};@x1 readonly default set[ 0]/*/*/( ...xs: #number ) ;}",
                &[
                    [20, 15, 27],
                    [44, 41, 41],
                    [14, 2, 10],
                    [6, 57, 64],
                    [7, 48, 56],
                    [35, 79, 93],
                    [17, 48, 56],
                    [18, 44, 47],
                ],
            )
        );
        assert!(rt;
            js(
                64,
                b"{constructor(this ,);accessor pub",
                &[[47, 13, 17], [51, 33, 33]],
            )
        );
        assert!(rt; js(64, b"{x;", &[[51, 3, 3]]));
        assert!(rt;
            ts(
                0,
                b"\n{ abstract protected public in #_1 ?() { } ;; }",
                &[
                    [5, 12, 21],
                    [1, 22, 28],
                    [11, 29, 31],
                    [12, 12, 21],
                    [12, 22, 28],
                    [29, 32, 35],
                    [46, 32, 35],
                ],
            )
        );
        assert!(rt;
            ts(
                0,
                b"/* c */{readonly accessor'constructor'!=() x x a;;accessor #static;;abstract public et #prototype(v){ } }",
                &[
                    [26, 25, 38],
                    [13, 8, 16],
                    [21, 38, 39],
                    [5, 77, 83],
                    [49, 87, 97],
                ],
            )
        );
        assert!(rt;
            ts(
                0,
                b"// c\n{get constructor<T> (){ async}}",
                &[[39, 10, 21], [32, 21, 24]],
            )
        );
    }

    #[test]
    fn bodies_3(rt: HostRuntime) {
        assert!(rt;
            ts(
                0,
                b"{\"constructor\"; static \"prototype\"; #constructor; get constructor() {} *constructor() {} async constructor() {} }",
                &[
                    [27, 1, 14],
                    [28, 23, 34],
                    [20, 36, 48],
                    [39, 54, 65],
                    [41, 72, 83],
                    [40, 95, 106],
                ],
            )
        );
        assert!(rt;
            ts(
                0,
                b"{/***/static accessor accessor[k:T]  :T}",
                &[[2, 22, 30], [9, 22, 30]],
            )
        );
        assert!(rt;
            ts(
                0,
                b"{@a @a @a @a @a @a @a @a @a @a @a @a @a @a @a @a @a x}",
                &[[52, 49, 50]],
            )
        );
        assert!(rt; ts(0, b"{@x1@dec@default accessor cons\"\"x}", &[[50, 30, 30]]));
        assert!(rt;
            ts(
                0,
                b"{abstract #x; abstract x = 1; declare x: t = 1; declare readonly x = 1}",
                &[[29, 1, 9], [30, 23, 24], [31, 45, 46]],
            )
        );
        assert!(rt; ts(0, b"{declare override x}", &[[3, 9, 17]]));
        assert!(rt;
            ts(
                0,
                b"{default x; readonly get y() {} @d constructor() {} const constructor() {} }",
                &[[6, 1, 8], [17, 12, 20], [19, 32, 34], [10, 52, 57]],
            )
        );
        assert!(rt;
            ts(
                0,
                b"{get x(a) {} set y() {} set z(...a) {} set w(a?) {} set v(a = 1) {} set u(a): t {}}",
                &[
                    [33, 6, 9],
                    [34, 18, 20],
                    [35, 30, 34],
                    [37, 45, 47],
                    [38, 57, 64],
                    [36, 76, 79],
                ],
            )
        );
        assert!(rt; ts(0, b"{override declare x}", &[[4, 10, 17]]));
        assert!(rt;
            ts(
                0,
                b"{readonly accessor readonly expires}",
                &[[2, 19, 27], [13, 19, 27]],
            )
        );
        assert!(rt;
            ts(
                0,
                b"{readonly declare constructor() {}}",
                &[[17, 1, 9], [16, 10, 17]],
            )
        );
        assert!(rt;
            ts(
                0,
                b"{x?!; x?!: t; accessor y?; accessor \"constructor\"; static accessor prototype}",
                &[
                    [24, 2, 4],
                    [22, 3, 4],
                    [24, 7, 9],
                    [25, 24, 25],
                    [26, 36, 49],
                ],
            )
        );
    }

    #[test]
    fn bodies_4(rt: HostRuntime) {
        assert!(rt; ts(64, b"\n{ public x=1\n}", &[[31, 12, 13]]));
        assert!(rt; ts(64, b" { @d 42( );;}", &[[18, 3, 5]]));
        assert!(rt;
            ts(
                64,
                b" {accessor #$: \t _a; constructor<T>( /* */ this:T):T{}}",
                &[[43, 32, 35], [44, 52, 52], [47, 43, 49], [48, 51, 52]],
            )
        );
        assert!(rt;
            ts(
                64,
                b"{ const readonly accessor abstract protected set 42 ( ...\tr] {};}",
                &[
                    [5, 26, 34],
                    [5, 35, 44],
                    [10, 2, 7],
                    [44, 61, 61],
                    [35, 54, 59],
                    [45, 49, 51],
                    [17, 8, 16],
                    [14, 17, 25],
                ],
            )
        );
        assert!(rt; ts(64, b"{ut*x(<;}", &[[49, 3, 4]]));
        assert!(rt;
            ts(
                511,
                b"\n{out const out static{(} ;; }",
                &[[2, 12, 15], [8, 6, 11], [8, 12, 15], [51, 30, 30]],
            )
        );
        assert!(rt;
            ts(
                511,
                b"{/***/accessor'#constructor' ? /* */ !:\tT/*{*/; async/* \" */set/*a*//*b*/#$/***/( \n) : \t this\n ;; }",
                &[
                    [24, 29, 38],
                    [25, 29, 30],
                    [23, 37, 38],
                    [34, 80, 84],
                    [15, 48, 53],
                ],
            )
        );
        assert!(rt;
            ts(
                511,
                b"{abstract declare default get  constructor \t (/**/){}do}",
                &[
                    [6, 18, 25],
                    [39, 31, 42],
                    [42, 31, 42],
                    [44, 51, 51],
                    [45, 31, 42],
                    [15, 10, 17],
                ],
            )
        );
    }
}
