// `route_learn`: ways that are asked for, told, learned and forgotten.
use route_learn::{Routes, Way};
use std::alloc::{AllocError, Global};
use xm_num::{Enclave, Neighbour};

#[derive(Drop)]
enum Step {
    // An enclave that knows nothing of ways, and whether it holds the name server.
    New(bool),
    // The calls of `Routes`, each with what it answers.
    Asked(Neighbour, bool),
    Here(Neighbour, bool),
    NextAsker(Option<Neighbour>),
    Back(Enclave, Neighbour),
    WayBack(Enclave, Option<Neighbour>),
    Learn(Enclave, Option<Neighbour>),
    Forget(Enclave),
    Server(Way),
    Way(Enclave, Way),
    NextRoute(u16, Option<(Enclave, Neighbour)>),
}

fn answers(alloc: Global, routes: &mut Routes, step: &Step) -> bool {
    match step {
        Step::New(holder) => renewed(alloc, routes, *holder).is_ok(),
        Step::Asked(by, want) => routes.asked(*by) == Ok(*want),
        Step::Here(from, want) => routes.here(*from) == *want,
        Step::NextAsker(want) => routes.next_asker() == *want,
        Step::Back(of, over) => routes.back(*of, *over).is_ok(),
        Step::WayBack(of, want) => routes.way_back(*of) == *want,
        Step::Learn(of, want) => routes.learn(*of) == Ok(*want),
        Step::Forget(of) => {
            routes.forget(*of);
            true
        }
        Step::Server(want) => routes.server() == *want,
        Step::Way(dest, want) => routes.way(*dest) == *want,
        Step::NextRoute(from, want) => routes.next_route(*from) == *want,
    }
}

fn renewed(alloc: Global, routes: &mut Routes, holder: bool) -> Result<(), AllocError> {
    *routes = Routes::new(alloc, holder)?;
    Ok(())
}

fn down(child: u16) -> Neighbour {
    Neighbour::Down(Enclave(child))
}

const UP: Neighbour = Neighbour::Up;

// Askers are taken Up first, and then ascending.
fn askers() -> [Step; 16] {
    [
        Step::New(false),
        Step::NextAsker(None),
        Step::Asked(down(3), false),
        Step::Asked(UP, false),
        Step::Asked(down(1), false),
        Step::Asked(down(3), false),
        Step::Asked(down(65535), false),
        Step::NextAsker(Some(UP)),
        Step::NextAsker(Some(down(1))),
        Step::NextAsker(Some(down(3))),
        Step::NextAsker(Some(down(65535))),
        Step::NextAsker(None),
        Step::NextAsker(None),
        Step::Asked(down(1), false),
        Step::NextAsker(Some(down(1))),
        Step::NextAsker(None),
    ]
}

// The first word of the way stays, and who tells it needs not be told.
fn words_of_the_way() -> [Step; 17] {
    [
        Step::New(false),
        Step::Server(Way::Unknown),
        Step::Here(down(2), true),
        Step::Server(Way::Over(down(2))),
        Step::Here(UP, false),
        Step::Server(Way::Over(down(2))),
        Step::Here(down(2), false),
        Step::Server(Way::Over(down(2))),
        Step::Asked(down(4), true),
        Step::NextAsker(None),
        Step::New(false),
        Step::Asked(down(2), false),
        Step::Asked(down(1), false),
        Step::Here(down(1), true),
        Step::Here(down(2), false),
        Step::NextAsker(Some(down(2))),
        Step::NextAsker(None),
    ]
}

// The holder of the name server is the end of the way.
fn holder() -> [Step; 11] {
    [
        Step::New(true),
        Step::Asked(down(1), true),
        Step::NextAsker(None),
        Step::Here(UP, false),
        Step::Server(Way::Own),
        Step::Way(Enclave(5), Way::Unknown),
        Step::Back(Enclave(5), down(4)),
        Step::Way(Enclave(5), Way::Unknown),
        Step::Learn(Enclave(5), Some(down(4))),
        Step::Way(Enclave(5), Way::Over(down(4))),
        Step::Server(Way::Own),
    ]
}

// Routes are learned from ways back.
fn learned() -> [Step; 24] {
    let seven = Enclave(7);
    [
        Step::New(false),
        Step::Learn(seven, None),
        Step::Way(seven, Way::Unknown),
        Step::Here(UP, true),
        Step::Way(seven, Way::Over(UP)),
        Step::Back(seven, down(3)),
        Step::WayBack(seven, Some(down(3))),
        Step::Way(seven, Way::Over(UP)),
        Step::Learn(seven, Some(down(3))),
        Step::WayBack(seven, Some(down(3))),
        Step::Way(seven, Way::Over(down(3))),
        Step::Back(seven, UP),
        Step::WayBack(seven, Some(UP)),
        Step::Way(seven, Way::Over(down(3))),
        Step::Learn(seven, Some(UP)),
        Step::WayBack(seven, Some(UP)),
        Step::Way(seven, Way::Over(UP)),
        Step::Back(seven, down(6)),
        Step::WayBack(seven, Some(down(6))),
        Step::Way(seven, Way::Over(UP)),
        Step::Learn(seven, Some(down(6))),
        Step::WayBack(seven, Some(down(6))),
        Step::Way(seven, Way::Over(down(6))),
        Step::WayBack(Enclave(8), None),
    ]
}

// Forgotten enclaves have no ways.
fn forgotten() -> [Step; 12] {
    [
        Step::New(false),
        Step::Back(Enclave(4), down(3)),
        Step::Learn(Enclave(4), Some(down(3))),
        Step::Back(Enclave(5), down(3)),
        Step::Learn(Enclave(5), Some(down(3))),
        Step::Forget(Enclave(4)),
        Step::Forget(Enclave(6)),
        Step::WayBack(Enclave(4), None),
        Step::Way(Enclave(4), Way::Unknown),
        Step::Learn(Enclave(4), None),
        Step::NextRoute(0, Some((Enclave(5), down(3)))),
        Step::WayBack(Enclave(5), Some(down(3))),
    ]
}

// Routes are given ascending, also where the numbers lie far apart.
fn given() -> [Step; 28] {
    [
        Step::New(false),
        Step::NextRoute(0, None),
        Step::Back(Enclave(9), down(1)),
        Step::Learn(Enclave(9), Some(down(1))),
        Step::Back(Enclave(2), UP),
        Step::Learn(Enclave(2), Some(UP)),
        Step::Back(Enclave(300), down(3)),
        Step::Learn(Enclave(300), Some(down(3))),
        Step::Back(Enclave(4), down(4)),
        Step::NextRoute(0, Some((Enclave(2), UP))),
        Step::NextRoute(2, Some((Enclave(2), UP))),
        Step::NextRoute(3, Some((Enclave(9), down(1)))),
        Step::NextRoute(9, Some((Enclave(9), down(1)))),
        Step::NextRoute(10, Some((Enclave(300), down(3)))),
        Step::NextRoute(301, None),
        Step::NextRoute(65535, None),
        Step::New(false),
        Step::Back(Enclave(300), down(3)),
        Step::Learn(Enclave(300), Some(down(3))),
        Step::Back(Enclave(65535), UP),
        Step::Learn(Enclave(65535), Some(UP)),
        Step::Back(Enclave(0), down(65535)),
        Step::Learn(Enclave(0), Some(down(65535))),
        Step::Way(Enclave(300), Way::Over(down(3))),
        Step::Forget(Enclave(300)),
        Step::NextRoute(0, Some((Enclave(0), down(65535)))),
        Step::NextRoute(1, Some((Enclave(65535), UP))),
        Step::NextRoute(65535, Some((Enclave(65535), UP))),
    ]
}

#[test]
fn ways_of_an_enclave(rt: HostRuntime) -> Result<(), AllocError> {
    let mut routes = Routes::new(rt.alloc(), false)?;
    let (askers, words, holder) = (askers(), words_of_the_way(), holder());
    let (learned, forgotten, given) = (learned(), forgotten(), given());
    let tables: [(&str, &[Step]); 6] = [
        ("askers", &askers),
        ("words", &words),
        ("holder", &holder),
        ("learned", &learned),
        ("forgotten", &forgotten),
        ("given", &given),
    ];
    for (name, steps) in tables {
        for (row, step) in steps.iter().enumerate() {
            assert!(rt; answers(rt.alloc(), &mut routes, step), "{name}, row {row}");
        }
    }
    Ok(())
}
